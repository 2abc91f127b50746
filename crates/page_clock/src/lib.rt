//! The two-handed clock of the pageout daemon: two hands go round the frames at a fixed distance.
//!
//! The front hand marks a frame as not referenced, and the back hand, which comes to the same frame
//! later, tells whether it was referenced meanwhile. This crate says only whose turn it is.
#![tactic(auto)]

ghost use Rattle.std.specs.Prelude.{◌≡◌, ℕ, ◌+◌, ◌-◌, ◌*◌, ◌%◌, ◌<◌, ◌≤◌};
ghost use Rattle.page_clock.specs.Clock.{next_pick, next_clock, place_of, fresh_clock, clock_after};

use std::marker::Model;

/// Which hand is at which frame.
#[derive(Clone, Copy, PartialEq, Debug)]
pub enum Pick {
    /// The front hand, at this frame.
    Front(u32),
    /// The back hand, at this frame.
    Back(u32),
}

/// Two hands over a row of frames, numbered from 0.
#[derive(Drop)]
pub struct Clock {
    frames: u32,
    distance: u32,
    front: u32,
    back_next: bool,
}

impl Model for Clock {
    ghost use Rattle.page_clock.specs.Seen.{ClockSeen, IsSoundClock};

    ghost Value = { ClockSeen };

    ghost view = { λ c. record { frames = c.frames; distance = c.distance; front = c.front; back_next = c.back_next } };

    ghost invariant = { λ c. IsSoundClock c.frames c.distance c.front };
}

impl Clock {
    /// A clock over so many frames, whose back hand is `distance` frames behind the front hand. The
    /// front hand is at frame 0 and moves first.
    pub const fn new(frames: u32, distance: u32) -> Clock
        requires apart { 1 ≤ distance }
        requires within { distance < frames }
        ensures { result ≡ fresh_clock frames distance }
    {
        Clock {
            frames,
            distance,
            front: 0,
            back_next: false,
        }
    }

    /// The next hand and its frame. The hands take turns: the front hand gives its place, then the back
    /// hand gives the place that is `distance` behind it, and the front hand moves on by one frame.
    pub fn step(&mut self) -> Pick
        ensures pick { result ≡ next_pick self.old }
        ensures new { self.new ≡ next_clock self.old }
        ensures within { place_of result < self.old.frames }
    {
        let front = self.front;
        if self.back_next {
            self.back_next = false;
            self.front = Self::place_after(front, self.frames);
            Pick::Back(Self::place_behind(front, self.distance, self.frames))
        } else {
            self.back_next = true;
            Pick::Front(front)
        }
    }

    /// The step, counted from 0, at which a new clock gives this pick in its first round of
    /// `2 * frames` steps. So each hand is at each frame once in that round.
    pub const fn turn_of(frames: u32, distance: u32, pick: Pick) -> u64
        requires apart { 1 ≤ distance }
        requires within { distance < frames }
        requires frame { place_of pick < frames }
        //
        ensures soon { result < 2 * frames }
        ensures comes { next_pick (clock_after result (fresh_clock frames distance)) ≡ pick }
        ensures once { (number : ℕ) → number < 2 * frames
            → next_pick (clock_after number (fresh_clock frames distance)) ≡ pick → number
            ≡ result }
    {
        match pick {
            Pick::Front(frame) => 2 * frame as u64,
            Pick::Back(frame) => 2 * Self::place_ahead(frame, distance, frames) as u64 + 1,
        }
    }

    const fn place_ahead(place: u32, distance: u32, frames: u32) -> u32
        requires place { place < frames }
        requires distance { distance < frames }
        ensures near { place + distance < frames → result ≡ place + distance }
        ensures round { frames ≤ place + distance → result + frames ≡ place + distance }
    {
        if place < frames - distance {
            place + distance
        } else {
            place - (frames - distance)
        }
    }

    const fn place_after(place: u32, frames: u32) -> u32
        requires { place < frames }
        ensures { result ≡ (place + 1) % frames }
    {
        if place + 1 == frames { 0 } else { place + 1 }
    }

    const fn place_behind(place: u32, distance: u32, frames: u32) -> u32
        requires place { place < frames }
        requires distance { distance < frames }
        ensures { result ≡ (place + frames - distance) % frames }
    {
        if place < distance {
            frames - (distance - place)
        } else {
            place - distance
        }
    }
}
