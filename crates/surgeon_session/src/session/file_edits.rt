//! An edit that the lines of a file say.
ghost use Rattle.std.specs.Prelude.{◌≡◌, IsErrOf, OnErr, OnOk};
ghost use Rattle.plain_model.specs.Counts.{Rose};
ghost use Rattle.plain_model.specs.declared.limit.TheConstants.{MAX_STREAM_BYTES};
ghost use Rattle.history_machine.specs.Sessions.{after_edit_by};
ghost use Rattle.surgeon_session.specs.Calls.{AsTold};
ghost use Rattle.surgeon_session.specs.Pieces.{
  CountsMiss,
  LeavesNothing,
  StopsNear,
  bytes_in,
  read_refused,
};
ghost use Rattle.surgeon_store.specs.Outside.{Reads};
ghost use Rattle.surgeon_store.specs.WholeFiles.{IsQuiet, ReturnsOrBreaks, file_within};

use super::Session;
use history_machine::a_file_edit_is_refused_for_a_line;
use plain_model::{MAX_STREAM_BYTES, Text};
use script_lines::ScriptText;
use script_reader::FileEdit;
use std::alloc::Global;
use surgeon_store::{ReadEnd, Store, read_file};

// The bytes of a file, within the limit of streams.
fn read_text<S: Store>(alloc: Global, store: &mut S, name: &str) -> Result<Text, ReadEnd>
    ensures returns { AsTold (S.state store.old).files (λ files. ReturnsOrBreaks (λ text. text) result
        (file_within files name.now MAX_STREAM_BYTES)) }
    ensures near { StopsNear (bytes_in (S.state store.old).files name.now) (read_refused result)
        (S.state store.new).rest }
    ensures whole { OnOk result (LeavesNothing (bytes_in (S.state store.old).files name.now)
        (S.state store.new).rest) }
    ensures failed { IsErrOf result ReadEnd.SourceFault
        → Rose (S.state store.old).read_faults (S.state store.new).read_faults }
    ensures frame { Reads (S.state store.old) (S.state store.new) }
    ensures quiet { IsQuiet result (S.state store.old) (S.state store.new) }
    ensures missed { CountsMiss (read_refused result) (S.state store.old) (S.state store.new) }
{
    read_file(alloc, store, name, MAX_STREAM_BYTES)
}

impl Session {
    // `msgin <FILE`, `authors read <FILE`
    pub(super) fn edit_by<S: Store>(
        &mut self,
        store: &mut S,
        what: FileEdit,
        file: &ScriptText,
    ) -> Result<(), ReadEnd>
        ensures returns { AsTold (S.state store.old).files
            (λ files. ReturnsOrBreaks (λ _. self.new) result
            (after_edit_by self.old files what file.now)) }
        ensures kept { OnErr result (self.new ≡ self.old) }
        ensures near { StopsNear (bytes_in (S.state store.old).files file.now) (read_refused result)
            (S.state store.new).rest }
        ensures whole { OnOk result (LeavesNothing (bytes_in (S.state store.old).files file.now)
            (S.state store.new).rest) }
        ensures failed { IsErrOf result ReadEnd.SourceFault
            → Rose (S.state store.old).read_faults (S.state store.new).read_faults }
        ensures quiet { IsQuiet result (S.state store.old) (S.state store.new) }
        ensures missed { CountsMiss (read_refused result) (S.state store.old) (S.state store.new) }
        ensures frame { Reads (S.state store.old) (S.state store.new) }
    {
        a_file_edit_is_refused_for_a_line();
        let _ = self.list.chosen()?;
        let text = read_text(self.alloc, store, file.as_str())?;
        Ok(self.list.edit_by(what, text.as_slice())?)
    }
}
