//! The frames of a core: acts on three of them, and what is told of each; a core of none; and one that goes to a thread.
ghost use Rattle.std.specs.Prelude.{◌≡◌, length, replicate};

use core_arena::{Core, Frame};
use std::alloc::Global;
use std::test::Fail;
use std::thread::{self, Threads};

fn filled(mut frame: Frame, byte: u8) -> Frame
    ensures { result ≡ record frame { bytes = replicate 4096 byte } }
{
    frame.bytes_mut().fill(byte);
    frame
}

/// A core of three frames.
#[derive(Drop)]
struct Frames {
    core: Core,
    ghost three: { length core.frames ≡ 3 },
}

#[derive(Clone, Copy)]
enum Act {
    /// Whether all bytes of a frame are this one.
    IsFull(u32, u8),
    /// Writes two bytes into a frame, from this place on.
    Write(u32, u32, [u8; 2]),
    /// Sets the byte of a frame at this place.
    Set(u32, u32, u8),
    /// The first two bytes of a frame, and its last three.
    Ends(u32),
    /// Which frames are at home.
    Homes,
    /// Takes a frame, looks at it, sets its first byte and puts it back.
    Trip(u32, u8),
    /// Fills frame 1 at home, and the others on two threads.
    FillOnThreads([u8; 3]),
    /// Whether the bytes of all frames are these, one for each frame.
    IsWhole([u8; 3]),
}

#[derive(Clone, Copy, PartialEq, Eq)]
enum Told {
    Yes,
    /// The frame isn't at home, or has other bytes.
    No,
    Ends([u8; 2], [u8; 3]),
    Homes([bool; 3]),
    /// Which frames were at home while the frame was away, its number, and its last three bytes.
    Away([bool; 3], u32, [u8; 3]),
}

impl Frames {
    fn homes(&self) -> [bool; 3] {
        [
            self.core.is_home(0),
            self.core.is_home(1),
            self.core.is_home(2),
        ]
    }

    fn is_full(&self, i: u32, byte: u8) -> Told {
        if i >= 3 || !self.core.is_home(i) || !are_all(self.core.bytes(i), byte) {
            return Told::No;
        }
        Told::Yes
    }

    fn write(&mut self, i: u32, at: u32, bytes: [u8; 2]) -> Told {
        if i >= 3 || at > 4094 || !self.core.is_home(i) {
            return Told::No;
        }
        self.core.write(i, at, &bytes);
        Told::Yes
    }

    fn set(&mut self, i: u32, at: u32, byte: u8) -> Told {
        if i >= 3 || at > 4095 || !self.core.is_home(i) {
            return Told::No;
        }
        self.core.bytes_mut(i)[at as usize] = byte;
        Told::Yes
    }

    fn ends(&self, i: u32) -> Told {
        if i >= 3 || !self.core.is_home(i) {
            return Told::No;
        }
        let bytes = self.core.bytes(i);
        Told::Ends([bytes[0], bytes[1]], last_three(bytes))
    }

    fn trip(&mut self, i: u32, byte: u8) -> Told {
        if i >= 3 || !self.core.is_home(i) {
            return Told::No;
        }
        let mut frame = self.core.take(i);
        let told = Told::Away(self.homes(), frame.number(), last_three(frame.bytes()));
        frame.bytes_mut()[0] = byte;
        self.core.put(frame);
        told
    }

    fn fill_on_threads(&mut self, rt: &impl Threads, bytes: [u8; 3]) -> Told {
        if !self.core.is_home(0) || !self.core.is_home(1) || !self.core.is_home(2) {
            return Told::No;
        }
        let first = self.core.take(0);
        let third = self.core.take(2);
        self.core.bytes_mut(1).fill(bytes[1]);
        let (first, third) = thread::join(
            rt,
            move || filled(first, bytes[0]),
            move || filled(third, bytes[2]),
        );
        let is_all_there = self.core.all().is_some();
        self.core.put(first);
        let is_all_there_but_one = self.core.all().is_some();
        self.core.put(third);
        if is_all_there || is_all_there_but_one {
            return Told::No;
        }
        Told::Yes
    }

    fn is_whole(&self, bytes: [u8; 3]) -> Told {
        let Some(all) = self.core.all() else {
            return Told::No;
        };
        let is_each = are_all(&all[..4096], bytes[0])
            && are_all(&all[4096..8192], bytes[1])
            && are_all(&all[8192..], bytes[2]);
        if is_each { Told::Yes } else { Told::No }
    }

    fn make(&mut self, rt: &impl Threads, act: Act) -> Told {
        match act {
            Act::IsFull(i, byte) => self.is_full(i, byte),
            Act::Write(i, at, bytes) => self.write(i, at, bytes),
            Act::Set(i, at, byte) => self.set(i, at, byte),
            Act::Ends(i) => self.ends(i),
            Act::Homes => Told::Homes(self.homes()),
            Act::Trip(i, byte) => self.trip(i, byte),
            Act::FillOnThreads(bytes) => self.fill_on_threads(rt, bytes),
            Act::IsWhole(bytes) => self.is_whole(bytes),
        }
    }
}

/// Whether these are the bytes of a frame that is full of this one.
fn are_all(bytes: &[u8], byte: u8) -> bool {
    bytes == [byte; 4096].as_slice()
}

fn last_three(bytes: &[u8]) -> [u8; 3]
    requires { length bytes.now ≡ 4096 }
{
    [bytes[4093], bytes[4094], bytes[4095]]
}

/// Makes the acts. It fails at the first of which something else is told.
fn make_all(rt: &impl Threads, frames: &mut Frames, acts: &[(Act, Told)]) -> Result<(), Fail> {
    for (place, &(act, told)) in acts.iter().enumerate() {
        let made = frames.make(rt, act);
        if made != told {
            return Err(Fail::new(format_args!("act {place} is told something else")));
        }
    }
    Ok(())
}

fn make_in_new_core(rt: &impl Threads, alloc: Global, acts: &[(Act, Told)]) -> Result<(), Fail> {
    let mut frames = Frames {
        core: Core::new(alloc, 3)?,
    };
    make_all(rt, &mut frames, acts)
}

#[test]
fn a_new_core_has_zeros_at_home(rt: HostRuntime) -> Result<(), Fail> {
    make_in_new_core(
        &rt,
        rt.alloc(),
        &[
            (Act::Homes, Told::Homes([true; 3])),
            (Act::IsFull(0, 0), Told::Yes),
            (Act::IsFull(1, 0), Told::Yes),
            (Act::IsFull(2, 0), Told::Yes),
            (Act::IsWhole([0; 3]), Told::Yes),
        ],
    )
}

#[test]
fn a_frame_keeps_its_bytes_away_and_home(rt: HostRuntime) -> Result<(), Fail> {
    make_in_new_core(
        &rt,
        rt.alloc(),
        &[
            (Act::Write(1, 4094, [b'a', b'b']), Told::Yes),
            (
                Act::Trip(1, 9),
                Told::Away([true, false, true], 1, [0, b'a', b'b']),
            ),
            (Act::Homes, Told::Homes([true; 3])),
            (Act::Ends(1), Told::Ends([9, 0], [0, b'a', b'b'])),
        ],
    )
}

#[test]
fn bytes_at_home_are_written_in_place(rt: HostRuntime) -> Result<(), Fail> {
    make_in_new_core(
        &rt,
        rt.alloc(),
        &[
            (Act::Set(0, 4095, 5), Told::Yes),
            (Act::Homes, Told::Homes([true; 3])),
            (Act::Ends(0), Told::Ends([0, 0], [0, 0, 5])),
            (Act::IsFull(1, 0), Told::Yes),
        ],
    )
}

#[test]
fn frames_are_filled_on_threads(rt: HostRuntime) -> Result<(), Fail> {
    make_in_new_core(
        &rt,
        rt.alloc(),
        &[
            (Act::FillOnThreads([0x10, 0x11, 0x12]), Told::Yes),
            (Act::IsFull(0, 0x10), Told::Yes),
            (Act::IsFull(1, 0x11), Told::Yes),
            (Act::IsFull(2, 0x12), Told::Yes),
            (Act::IsWhole([0x10, 0x11, 0x12]), Told::Yes),
        ],
    )
}

#[test]
fn a_core_of_no_frames_has_no_bytes(rt: HostRuntime) -> Result<(), Fail> {
    let core = Core::new(rt.alloc(), 0)?;
    assert_eq!(rt; core.all().ok_or("none")?.len(), 0);
    Ok(())
}

#[test]
fn a_core_moves_to_a_thread(rt: HostRuntime) -> Result<(), Fail> {
    let core = Core::new(rt.alloc(), 1)?;
    let (home, _) = thread::join(&rt, move || core.is_home(0), || ());
    assert!(rt; home);
    Ok(())
}
