//! The bytes of a page.
ghost use Rattle.std.specs.Prelude.{◌≡◌, IfOk};
ghost use Rattle.flat_model.specs.Words.{zero_page};

use std::alloc::{AllocError, Global};
use std::marker::Model;
use std::rc::Rc;

static ZEROS: [u8; 4096] = [0; 4096];

/// The bytes of a page of zeros.
#[tactic(auto, unfolding(flat_model::specs::Words::zero_page))]
pub(crate) fn zero_bytes() -> &'static [u8]
    ensures { result.now ≡ zero_page }
{
    &ZEROS
}

/// The bytes of a page, shared by all that have the same page. A page of zeros takes no memory.
#[derive(Drop)]
pub(crate) struct PageBytes {
    /// None for zeros.
    bytes: Option<Rc<Vec<u8>>>,
}

impl Clone for PageBytes {
    ghost is_clone = { λ v w. w ≡ v };

    fn clone(&self) -> Result<PageBytes, AllocError> {
        self.shared()
    }
}

impl Model for PageBytes {
    ghost use Rattle.flat_model.specs.Words.{Page};
    ghost use Rattle.flat_state.specs.PageCode.{page_code};

    ghost Value = { Page };

    ghost coded = { page_code };

    ghost use Rattle.std.specs.Option.{option_map_or};
    ghost use Rattle.flat_model.specs.Words.{zero_page};

    ghost view = { λ p. option_map_or (λ b. b.value.items) p.bytes zero_page };
}

impl PageBytes {
    /// A page of zeros. Takes no memory.
    pub fn zeros() -> PageBytes
        ensures { result ≡ zero_page }
    {
        PageBytes { bytes: None }
    }

    /// A page of these bytes.
    pub fn new(alloc: Global, bytes: Vec<u8>) -> Result<PageBytes, AllocError>
        ensures { IfOk result (λ page. page ≡ bytes.items) }
    {
        Ok(PageBytes {
            bytes: Some(Rc::new(alloc, bytes)?),
        })
    }

    /// The same page once more, which takes no memory.
    pub fn shared(&self) -> Result<PageBytes, AllocError>
        ensures { IfOk result (λ page. page ≡ self.now) }
    {
        match &self.bytes {
            Some(bytes) => Ok(PageBytes {
                bytes: Some(bytes.clone()?),
            }),
            None => Ok(PageBytes::zeros()),
        }
    }

    /// The bytes.
    pub fn as_slice(&self) -> &[u8]
        ensures { result.now ≡ self.now }
    {
        match &self.bytes {
            Some(bytes) => bytes.as_slice(),
            None => zero_bytes(),
        }
    }
}
