//! Each call once, with ample memory: acts on a pool of translations over four frames, and what is told of each.
ghost use Rattle.std.specs.Prelude.{◌≡◌, ◌<◌};

use hat_layer::{Dropped, Hat};
use std::alloc::Global;
use std::test::Fail;

/// Translations over four frames.
#[derive(Drop)]
struct Pool {
    hat: Hat,
    ghost four: { hat.frames ≡ 4 },
}

#[derive(Clone, Copy)]
enum Act {
    /// Loads a translation of a page of a space to a frame, writable or not. The page then leads there.
    Load(u32, u32, u32, bool),
    /// Notes an access to a page of a space, which writes or doesn't.
    Touch(u32, u32, bool),
    /// The frame of a page, for an access that writes or doesn't.
    FrameFor(u32, u32, bool),
    Find(u32, u32),
    Protect(u32, u32),
    Unload(u32, u32),
    PageUnload(u32),
    PageSync(u32),
}

#[derive(Clone, Copy, PartialEq, Eq)]
enum Told {
    /// What gave way, or was unloaded.
    Gave(Option<Dropped>),
    Frame(Option<u32>),
    Found(Option<(u32, bool)>),
    /// Whether the page was used, and whether it was modified.
    Bits(bool, bool),
    Yes,
    /// The call isn't made, or a page doesn't lead where it should.
    No,
}

const NOTHING: Told = Told::Gave(None);

const fn gave(space: u32, page: u32, frame: u32) -> Told {
    Told::Gave(Some(Dropped {
        space,
        page,
        frame,
        referenced: false,
        modified: false,
    }))
}

impl Pool {
    fn load(&mut self, space: u32, page: u32, frame: u32, writable: bool) -> Told {
        if frame >= 4 {
            return Told::No;
        }
        let dropped = self.hat.load(space, page, frame, writable);
        if self.hat.find(space, page) != Some((frame, writable)) {
            return Told::No;
        }
        Told::Gave(dropped)
    }

    fn touch(&mut self, space: u32, page: u32, write: bool) -> Told {
        let Some((_frame, writable)) = self.hat.find(space, page) else {
            return Told::No;
        };
        if write && !writable {
            return Told::No;
        }
        self.hat.touch(space, page, write);
        Told::Yes
    }

    fn page_unload(&mut self, frame: u32) -> Told {
        if frame >= 4 {
            return Told::No;
        }
        let (referenced, modified) = self.hat.page_unload(frame);
        Told::Bits(referenced, modified)
    }

    fn page_sync(&mut self, frame: u32) -> Told {
        if frame >= 4 {
            return Told::No;
        }
        let (referenced, modified) = self.hat.page_sync(frame);
        Told::Bits(referenced, modified)
    }

    fn protect(&mut self, space: u32, page: u32) -> Told {
        self.hat.protect(space, page);
        Told::Yes
    }

    fn make(&mut self, act: Act) -> Told {
        match act {
            Act::Load(space, page, frame, writable) => self.load(space, page, frame, writable),
            Act::Touch(space, page, write) => self.touch(space, page, write),
            Act::FrameFor(space, page, write) => Told::Frame(
                self.hat.frame_for(space, page, write),
            ),
            Act::Find(space, page) => Told::Found(self.hat.find(space, page)),
            Act::Protect(space, page) => self.protect(space, page),
            Act::Unload(space, page) => Told::Gave(self.hat.unload(space, page)),
            Act::PageUnload(frame) => self.page_unload(frame),
            Act::PageSync(frame) => self.page_sync(frame),
        }
    }
}

/// Makes the acts. It fails at the first of which something else is told.
fn make_all(pool: &mut Pool, acts: &[(Act, Told)]) -> Result<(), Fail> {
    for (place, &(act, told)) in acts.iter().enumerate() {
        let made = pool.make(act);
        if made != told {
            return Err(Fail::new(format_args!("act {place} is told something else")));
        }
    }
    Ok(())
}

fn make_in_new_pool(alloc: Global, places: u32, acts: &[(Act, Told)]) -> Result<(), Fail>
    requires { 0 < places }
{
    let mut pool = Pool {
        hat: Hat::new(alloc, places, 4)?,
    };
    make_all(&mut pool, acts)
}

#[test]
fn a_full_pool_steals_from_place_0_on(rt: HostRuntime) -> Result<(), Fail> {
    make_in_new_pool(
        rt.alloc(),
        2,
        &[
            (Act::Load(1, 7, 0, true), NOTHING),
            (Act::Load(2, 7, 1, false), NOTHING),
            (Act::Load(1, 8, 2, true), gave(1, 7, 0)),
            (Act::Load(2, 9, 3, true), gave(2, 7, 1)),
            (Act::Load(2, 9, 0, false), gave(2, 9, 3)),
            (Act::Load(3, 1, 3, true), gave(1, 8, 2)),
        ],
    )
}

#[test]
fn bits_are_told_once(rt: HostRuntime) -> Result<(), Fail> {
    make_in_new_pool(
        rt.alloc(),
        2,
        &[
            (Act::Load(1, 7, 3, true), NOTHING),
            (Act::Touch(1, 7, true), Told::Yes),
            (Act::PageSync(3), Told::Bits(true, true)),
            (Act::PageSync(3), Told::Bits(false, false)),
        ],
    )
}

#[test]
fn an_access_is_let_or_nothing_is_noted(rt: HostRuntime) -> Result<(), Fail> {
    make_in_new_pool(
        rt.alloc(),
        4,
        &[
            (Act::Load(1, 7, 0, true), NOTHING),
            (Act::Load(1, 8, 2, false), NOTHING),
            (Act::FrameFor(1, 9, false), Told::Frame(None)),
            (Act::FrameFor(1, 8, true), Told::Frame(None)),
            (Act::PageSync(2), Told::Bits(false, false)),
            (Act::FrameFor(1, 8, false), Told::Frame(Some(2))),
            (Act::PageSync(2), Told::Bits(true, false)),
            (Act::FrameFor(1, 7, true), Told::Frame(Some(0))),
            (Act::PageSync(0), Told::Bits(true, true)),
        ],
    )
}

#[test]
fn a_frame_is_forgotten_by_all_spaces(rt: HostRuntime) -> Result<(), Fail> {
    make_in_new_pool(
        rt.alloc(),
        4,
        &[
            (Act::Load(1, 7, 3, true), NOTHING),
            (Act::Load(2, 7, 3, true), NOTHING),
            (Act::Protect(2, 7), Told::Yes),
            (Act::Find(2, 7), Told::Found(Some((3, false)))),
            (Act::PageUnload(3), Told::Bits(false, false)),
            (Act::Find(1, 7), Told::Found(None)),
        ],
    )
}

#[test]
fn a_page_is_unloaded_once(rt: HostRuntime) -> Result<(), Fail> {
    make_in_new_pool(
        rt.alloc(),
        4,
        &[
            (Act::Load(1, 8, 2, true), NOTHING),
            (Act::Unload(1, 8), gave(1, 8, 2)),
            (Act::Unload(1, 8), NOTHING),
        ],
    )
}
