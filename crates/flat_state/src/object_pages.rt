//! The pages of an object, of which those that nobody stored into take no memory.
ghost use Rattle.std.specs.Prelude.{◌≡◌, IfOk, OnOk, OnErr, length, option_map, replicate, slice_get, slice_set};
ghost use Rattle.flat_model.specs.Words.{zero_page};

use crate::page_bytes::{PageBytes, zero_bytes};
use std::alloc::{AllocError, Global};
use std::collections::BTreeMap;
use std::marker::Model;

/// The pages of an object, by number.
#[derive(Drop)]
pub(crate) struct ObjectPages {
    count: u64,
    /// The pages that were stored into. All others are zeros.
    stored: BTreeMap<u64, PageBytes>,
}

impl Clone for ObjectPages {
    ghost is_clone = { λ v w. w ≡ v };

    fn clone(&self) -> Result<ObjectPages, AllocError> {
        self.copied()
    }
}

impl Model for ObjectPages {
    ghost use Rattle.std.specs.Prelude.{List};
    ghost use Rattle.std.specs.Coded.{coded_list};
    ghost use Rattle.flat_model.specs.Words.{Page};
    ghost use Rattle.flat_state.specs.PageCode.{page_code};

    ghost Value = { List Page };

    ghost coded = { coded_list page_code };

    ghost use Rattle.flat_state.specs.Stored.{page_in, pages_by};

    ghost view = { λ p. pages_by (page_in p.stored.entries) 0 p.count };
}

impl ObjectPages {
    /// So many pages of zeros. Takes no memory.
    pub fn new(alloc: Global, count: u64) -> ObjectPages
        ensures { result ≡ replicate count zero_page }
    {
        ObjectPages {
            count,
            stored: BTreeMap::new(alloc),
        }
    }

    /// How many pages there are.
    pub fn len(&self) -> u64
        ensures { result ≡ length self.now }
    {
        self.count
    }

    /// The bytes of a page, if there is one of this number.
    pub fn get(&self, index: u64) -> Option<&[u8]>
        ensures { option_map (λ p. p.now) result ≡ slice_get self.now index }
    {
        if index >= self.count {
            return None;
        }
        match self.stored.get(&index) {
            Some(page) => Some(page.as_slice()),
            None => Some(zero_bytes()),
        }
    }

    /// Puts a page in the place of the one of this number, if there is one.
    pub fn set(&mut self, index: u64, page: PageBytes) -> Result<(), AllocError>
        ensures ok { OnOk result (self.new ≡ slice_set self.old index page) }
        ensures err { OnErr result (self.new ≡ self.old) }
    {
        if index >= self.count {
            return Ok(());
        }
        self.stored.insert(index, page)?;
        Ok(())
    }

    /// The same pages once more.
    pub fn copied(&self) -> Result<ObjectPages, AllocError>
        ensures { IfOk result (λ pages. pages ≡ self.now) }
    {
        Ok(ObjectPages {
            count: self.count,
            stored: self.stored.clone()?,
        })
    }
}
