// Messages, one after another.
ghost use Rattle.std.specs.Prelude.{◌≡◌, List, IfOk};
ghost use Rattle.std.specs.List.{AllByRecursion};
ghost use Rattle.ty_wire.specs.Wire.{IsWire};
ghost use Rattle.ty_wire.specs.declared.message.Msg.{Msg as Message};
ghost use Rattle.ty_client.specs.Rebuild.{staged};
ghost use Rattle.ty_client.specs.steps.Stage.{IsJudged};

use crate::at::Ats;
use crate::fault::StreamFault;
use crate::stage::Stage;
use std::alloc::Global;
use ty_base::NoMemory;
use ty_wire::Msg;

/// What bytes brought.
#[derive(Drop)]
pub struct Heard {
    /// What was rebuilt at each crumb end that came, in order.
    pub ats: Ats,
    /// Why no more will be heard on this connection, if that is known.
    pub fault: Option<StreamFault>,
}

// Takes in the messages before the first that isn't in its place.
pub(crate) fn hear_all(
    alloc: Global,
    stage: &mut Stage,
    msgs: &[Msg],
    up: &mut Vec<u8>,
) -> Result<Heard, NoMemory>
    requires { AllByRecursion IsWire msgs.now }
    ensures { IfOk result (λ h. (before : List Message) → stage.old ≡ staged before
        → IsJudged before msgs.now h.ats h.fault stage.new up.old.items up.new.items) }
{
    let mut ats = Ats::new(alloc);
    for msg in msgs {
        if let Some(fault) = stage.fault_of(msg) {
            return Ok(Heard {
                ats,
                fault: Some(fault),
            });
        }
        stage.hear(alloc, msg, &mut ats, up)?;
    }
    Ok(Heard { ats, fault: None })
}
