// A page that several maps share.
ghost use Rattle.std.specs.Prelude.{◌≡◌, IfOk};

use std::alloc::{AllocError, Global};
use std::marker::Model;
use std::rc::Rc;

/// The bytes of a page, which each map that has the page unchanged shares. A contract sees the list of them.
#[derive(Drop)]
pub struct SharedPage {
    bytes: Rc<Vec<u8>>,
}

impl Model for SharedPage {
    ghost use Rattle.std.specs.Prelude.{List, ℕ};

    ghost Value = { List ℕ };

    ghost view = { λ page. page.bytes.value.items };
}

impl SharedPage {
    /// A page with these bytes. The error is want of memory.
    pub fn of(alloc: Global, bytes: Vec<u8>) -> Result<SharedPage, AllocError>
        ensures { IfOk result (λ page. page ≡ bytes.items) }
    {
        let bytes = Rc::new(alloc, bytes)?;
        Ok(SharedPage { bytes })
    }

    /// The same page once more. The error is want of memory, or too many sharers.
    pub fn share(&self) -> Result<SharedPage, AllocError>
        ensures { IfOk result (λ page. page ≡ self.now) }
    {
        let bytes = self.bytes.clone()?;
        Ok(SharedPage { bytes })
    }

    /// All bytes of the page.
    pub fn bytes(&self) -> &[u8]
        ensures { result.now ≡ self.now }
    {
        self.bytes.as_slice()
    }
}
