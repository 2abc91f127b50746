//! The test of a call's form.
ghost use Rattle.std.specs.Prelude.{◌↔◌, IsTrue};
ghost use Rattle.vm_types.specs.WellFormed.{IsNumber, IsPlace, IsObject, IsInOneLine, IsWellFormed};
ghost use Rattle.vm_types.specs.Words.{IsWordSize, FitsWord};

use crate::call::{Call, Object, Place};
use crate::line::Line;
use crate::pages::line_rest;

// Each `u32` is a number. A call that is behind a reference shows this only as its fields are read.
fn is_number(_number: u32) -> bool
    ensures { IsTrue result ↔ IsNumber _number }
{
    true
}

fn is_place(place: Place) -> bool
    ensures { IsTrue result ↔ IsPlace place }
{
    match place {
        Place::At(addr) => is_number(addr),
        Place::Any => true,
    }
}

fn is_object(object: Object) -> bool
    ensures { IsTrue result ↔ IsObject object }
{
    match object {
        Object::File(number) | Object::Zero(number) => is_number(number),
        Object::NewZero => true,
    }
}

fn is_word_size(size: u32) -> bool
    ensures { IsTrue result ↔ IsWordSize size }
{
    size == 1 || size == 2 || size == 4
}

// Whether the value fits a word of this size.
fn fits_word(size: u32, value: u32) -> bool
    requires { IsWordSize size }
    ensures { IsTrue result ↔ FitsWord size value }
{
    size == 4 || value >> (8 * size) == 0
}

fn is_in_one_line(offset: u32, bytes: &Line) -> bool
    ensures { IsTrue result ↔ IsInOneLine offset bytes.now }
{
    let bytes = bytes.bytes();
    1 <= bytes.len() && bytes.len() <= line_rest(offset) as usize
}

impl Call {
    /// Whether the call is well formed, as those want it who make its next part or a step of it.
    pub fn is_well_formed(&self) -> bool
        ensures { IsTrue result ↔ IsWellFormed self.now }
    {
        match *self {
            Call::Load { addr, size } => is_number(addr) && is_word_size(size),
            Call::Store { addr, size, value } => {
                is_number(addr) && is_word_size(size) && fits_word(size, value)
            }
            Call::Map {
                place,
                length,
                prot,
                object,
                offset,
                ..
            } => {
                is_place(place)
                    && is_number(length)
                    && prot.is_prot()
                    && is_object(object)
                    && is_number(offset)
            }
            Call::Unmap { addr, length } | Call::Sync { addr, length } => {
                is_number(addr) && is_number(length)
            }
            Call::Protect { addr, length, prot } => {
                is_number(addr) && is_number(length) && prot.is_prot()
            }
            Call::Read {
                file,
                offset,
                length,
            } => is_number(file) && is_number(offset) && is_number(length) && 1 <= length,
            Call::Write {
                file,
                offset,
                ref bytes,
                rest,
            } => {
                is_number(file)
                    && is_number(offset)
                    && is_in_one_line(offset, bytes)
                    && is_number(rest)
            }
            Call::Truncate { file, length } => is_number(file) && is_number(length),
            Call::Fork { child } => is_number(child),
            Call::Exit => true,
        }
    }
}
