//! What a Map asks for.
ghost use Rattle.std.specs.Prelude.{◌≡◌};
ghost use Rattle.flat_model.specs.Mapping.{is_place, is_valid, is_new_zero};
ghost use Rattle.flat_state.specs.Mapped.{request_of};

use flat_model::{Kind, Object, PAGE_SIZE, Place, Prot, is_range};

/// What a Map asks for: lengths and offsets in bytes.
#[derive(Clone, Copy)]
pub(crate) struct MapCall {
    pub place: Place,
    pub length: u32,
    pub prot: Prot,
    pub kind: Kind,
    pub object: Object,
    pub offset: u32,
}

// Whether so many bytes can be mapped there.
fn is_place(place: Place, length: u32) -> bool
    ensures { result ≡ is_place place length }
{
    match place {
        Place::At(addr) => is_range(addr, length),
        Place::Any => length != 0,
    }
}

// Whether the object is a new one.
fn is_new_zero(object: Object) -> bool
    ensures { result ≡ is_new_zero object }
{
    match object {
        Object::NewZero => true,
        Object::File(_) | Object::Zero(_) => false,
    }
}

impl MapCall {
    /// Whether its place is valid, its offset begins a page, and new zero memory has the offset 0.
    pub(crate) fn is_valid(&self) -> bool
        ensures { result ≡ is_valid (request_of self.now) }
    {
        is_place(self.place, self.length)
            && self.offset % PAGE_SIZE == 0
            && (!is_new_zero(self.object) || self.offset == 0)
    }
}
