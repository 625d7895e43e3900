//! A floor request as it is shown, held once by all that tell of it (RFC 8855, section 5.2.15).

ghost use Rattle.std.specs.Prelude.{◌≡◌, IfOk, OnOk, Some};

use crate::information::Info;
use std::alloc::{AllocError, Global};
use std::marker::Model;
use std::sync::Arc;

/// A floor request as shown, which may have several owners.
///
/// It is made of an [`Info`]. `share` gives another owner, `as_info` looks, and `set_statuses`
/// changes what this owner shows, and no other.
#[derive(Debug, Drop)]
pub struct SharedInfo {
    info: Arc<Info, Global>,
}

impl Model for SharedInfo {
    ghost use Rattle.std.specs.Arc.{arc_value};
    ghost use Rattle.floor_message.specs.declared.information.Info.{Info};

    ghost Value = { Info };

    ghost view = { λ s. arc_value s.info };
}

impl SharedInfo {
    /// A floor request as shown, which has one owner.
    pub fn new(alloc: Global, info: Info) -> Result<SharedInfo, AllocError>
        ensures value { IfOk result (λ shared. shared ≡ info) }
    {
        Ok(SharedInfo {
            info: Arc::new(alloc, info)?,
        })
    }

    /// What is shown. Takes no memory.
    pub fn as_info(&self) -> &Info
        ensures value { result.now ≡ self.now }
    {
        &self.info
    }

    /// Another owner of the same. Takes no memory.
    pub fn share(&self) -> Result<SharedInfo, AllocError>
        ensures value { IfOk result (λ shared. shared ≡ self.now) }
    {
        Ok(SharedInfo {
            info: Arc::try_clone(&self.info)?,
        })
    }

    /// Shows another status and queue position of the whole request, and these floors. Takes no
    /// memory where this is the only owner, and as many floors are shown already. After an error
    /// this owner shows a part of it, and is of no more use.
    pub fn set_statuses(
        &mut self,
        alloc: Global,
        overall: (u8, u8),
        floors: &[(u16, Option<(u8, u8)>)],
    ) -> Result<(), AllocError>
        ensures value { OnOk result (self.new
            ≡ record self.old { overall = Some overall; floors = floors.now }) }
    {
        match Arc::get_mut(&mut self.info) {
            Some(info) => set_statuses(info, overall, floors),
            None => {
                let mut info = self.info.copy(alloc)?;
                set_statuses(&mut info, overall, floors)?;
                self.info = Arc::new(alloc, info)?;
                Ok(())
            }
        }
    }
}

fn set_statuses(
    info: &mut Info,
    overall: (u8, u8),
    floors: &[(u16, Option<(u8, u8)>)],
) -> Result<(), AllocError>
    ensures { OnOk result (info.new
        ≡ record info.old { overall = Some overall; floors = floors.now }) }
{
    info.overall = Some(overall);
    info.floors.assign(floors)
}
