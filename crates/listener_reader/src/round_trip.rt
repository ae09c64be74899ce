//! The law on listeners in JSON: what is written of one is read back.
ghost use Rattle.std.specs.Prelude.{◌≡◌, ◌<◌, true, Some, MatchResult, IfOk, string_bytes};
ghost use Rattle.serde_json.specs.Read.{read};
ghost use Rattle.mesh_doc.specs.declared.fault.DocError.TheVariants as error;
ghost use Rattle.envoy_types.specs.ListenerForms.{is_printable, listener_depth, listener_written};
ghost use Rattle.listener_reader.specs.ReadBack.{WrittenIsRead};
ghost use Rattle.listener_reader.specs.RisingNames.{ReadCanBeWritten};

use crate::from_value;
use envoy_types::Listener;
use listener_writer::to_value;
use mesh_doc::DocError;
use mesh_text::List;
use serde_json::Value;
use std::alloc::Global;

/// A law: a reader that keeps the promise of `from_value` answers, of the value that `to_value` promises for a listener that can
/// be written, that same listener, or `Memory`, at whatever place it reads. The call does nothing.
pub fn written_is_read()
    ensures { WrittenIsRead }
{}

/// A law: a listener that a value spells can be written, where the names of its policies and of its providers rise, as those of
/// every listener do by its types. The call does nothing.
pub fn read_can_be_written()
    ensures { ReadCanBeWritten }
{}

/// The compact text of a listener that can be written, and the listener that is read from that text, where it nests less
/// than 127 deep: the text is JSON whose value is what is written of the listener, and what is read from it is that listener.
/// Answers both, or `Memory`.
pub fn read_back_text(alloc: Global, listener: &Listener) -> Result<(String, Listener), DocError>
    requires printable { is_printable listener.now ≡ true }
    requires shallow { listener_depth listener.now < 127 }
    ensures text { IfOk result (λ both. read (string_bytes both.0) ≡ Some (listener_written listener.now)) }
    ensures back { MatchResult result (λ both. both.1 ≡ listener.now) (λ e. e ≡ error.Memory) }
{
    written_is_read();
    let value = to_value(alloc, listener)?;
    let Ok(text) = value.to_string(alloc) else {
        return Err(DocError::Memory);
    };
    let Ok(again) = Value::from_str(alloc, text.as_str()) else {
        return Err(DocError::Memory);
    };
    let back = from_value(alloc, &again, &List::new(alloc))?;
    Ok((text, back))
}
