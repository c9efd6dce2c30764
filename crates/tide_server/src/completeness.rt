//! Laws of servers over files, a port and a clock that don't fail.

ghost use Rattle.std.specs.Prelude.{◌≡◌, Some, None, Ok, codes};
ghost use Rattle.question.specs.declared.command.Command.{Command};
ghost use Rattle.question.specs.Worked.{bare};
ghost use Rattle.tide_server.specs.Completeness.{IsComplete, NothingFailed};
ghost use Rattle.tide_server.specs.Openings.{service_of, served_data_of};
ghost use Rattle.tide_server.specs.Promises.{service_states};
ghost use Rattle.tide_server.specs.Worked.{in_memory, pier, pier_data, pier_words};

use harmonics_text::worked_files;
use tide_edge::{Clock, Door, Files, Sink};

/// Proves that a server that returns has the exit status Done, or ran out of memory before it listened.
/// The conditions: the files that the arguments name exist, can always be opened and read, are in their
/// formats, and are no longer than may be read (67,108,864 bytes each); and the clock and the port don't
/// fail.
pub fn servers_are_complete<F: Files, D: Door, E: Sink, K: Clock>()
    ensures { IsComplete (service_states F.state D.state E.state K.state) }
{}

/// Proves, for an example of a server in memory, its request, the data that it serves, that it doesn't
/// listen yet, and that none of its files, port and clock failed.
pub fn worked_servers()
    ensures words { service_of pier_words ≡ Ok (record (bare Command.Serve) { file = Some (codes "f") }) }
    ensures served_data { served_data_of (in_memory.files pier.files).file_contents.folder pier_words ≡ Ok pier_data }
    ensures not_listening { (in_memory.door pier.door).listener_state.port ≡ None }
    ensures nothing_failed { NothingFailed in_memory pier pier }
{
    worked_files();
}
