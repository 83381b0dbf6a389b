ghost use Rattle.std.specs.Prelude.{◌≡◌};
ghost use Rattle.law_joined_nodes.specs.Laws.{NodesRun, NodesStand};
ghost use Rattle.law_joined_nodes.specs.Poured.{PouredStand, TcpIsEnough};
ghost use Rattle.law_joined_nodes.specs.PouredLog.{PouredLogRight};
ghost use Rattle.law_node_runs.specs.Anew.{KeptLogTellsOwn, KeptRunsAreRuns, NewMachinesRunAsEver};
ghost use Rattle.law_node_runs.specs.First.{CallsComeFirst};
ghost use Rattle.law_node_runs.specs.Kept.{EachKeptRunIsOne};
ghost use Rattle.law_node_runs.specs.OldBytes.{NothingOldIsSent};
ghost use Rattle.law_node_runs.specs.PowerCut.{PowerCutsAreSurvived};
ghost use Rattle.node_cli.specs.BookAnswered.{EachBookInputHasOneAnswer, IsBookAnswered, counts};
ghost use Rattle.node_commands.specs.Books.{DoesNodeBook, FitsNodeBook, HasBookCauses, StopsBeginAgain, outside};
ghost use Rattle.node_commands.specs.Command.{is_one};
ghost use Rattle.node_commands.specs.declared.book_status.BookStatus.TheVariants as ends;
ghost use Rattle.node_cli.specs.Logged.{TextIsBounded};
ghost use Rattle.law_node_runs.specs.Connections.{ConnectionsAreInOrder};
ghost use Rattle.node_run.specs.Settled.{SettingsAreTheLast};
ghost use Rattle.restart_book.specs.Exactly.{EachBookHasOneAnswer};
ghost use Rattle.law_running_line.specs.Reading.{Behind};
ghost use Rattle.law_stops.specs.Stops.{StopIsTurnZero};

use line_base::Words;
use line_outside::{Clock, Ports, Sink, Source};
use node_commands::{BookStatus, Guarded, run_with_book};
use std::alloc::Global;

/// The program `node`: runs the machine that a settings file describes, from where its book leads.
///
/// As `node_main`; and `book` has an entry for each step that the machine made. Where another process
/// has it, the program ends with `BookBusy` and touches nothing. Else the machine begins again from it:
/// what follows its whole entries is cut off, and where the machine had a connection, or was supervised,
/// it makes a step by which it knows that it has none any more. The entry of each further step is in the
/// book before anything of that step goes out.
pub fn node_book_main<S: Source, P: Ports, C: Clock, K: Sink, B: Guarded>(
    alloc: Global,
    words: &Words,
    file: &mut S,
    ports: &mut P,
    clock: &mut C,
    log: &mut K,
    book: &mut B,
) -> BookStatus
    // over a file, ports, a log and a book that tell: the calls, the log, the book and the status are
    // those of the run from where the book leads, each of its moves at a moment of the clock
    ensures does { DoesNodeBook (is_one words.now) (S.left file.old) (B.busy book.old)
        (B.left book.old) (C.moment clock.old) (outside (P.given ports.old) (K.contents log.old) (B.contents book.old))
        (outside (P.given ports.new) (K.contents log.new) (B.contents book.new)) result }
    ensures fits { FitsNodeBook (is_one words.now) result }
    ensures causes { HasBookCauses result (S.faults file.old) (S.faults file.new)
        (P.faults ports.old) (P.faults ports.new) (K.faults log.old) (K.faults log.new)
        (B.faults book.old) (B.faults book.new) }
    // a book that another process has isn't read
    ensures unread { result ≡ ends.BookBusy → B.left book.new ≡ B.left book.old }
    // in one sentence: the answer is the one that the words, the bytes of the file and of the book, whether
    // another process has that, the moments and what the ports answered have, or a fault of file, log or book
    // whose count rose, or Memory
    ensures complete { IsBookAnswered (is_one words.now) (S.left file.old) (B.busy book.old)
        (B.left book.old) (C.moment clock.old) (outside (P.given ports.old) (K.contents log.old) (B.contents book.old))
        (outside (P.given ports.new) (K.contents log.new) (B.contents book.new))
        (counts (S.faults file.old) (K.faults log.old) (B.faults book.old))
        (counts (S.faults file.new) (K.faults log.new) (B.faults book.new)) result }
    // and these have one at most, with one list of calls, one log and one change of the book
    ensures determined { EachBookInputHasOneAnswer }
    // since a book leads to one machine, or is bad at one place for one reason
    ensures one_book { EachBookHasOneAnswer }
    // and a run over a book is one
    ensures one_kept { EachKeptRunIsOne }
    // the call of a move comes before its step: none follows from a step whose entry isn't in the book
    ensures first { CallsComeFirst }
    // whatever a run has kept, the machine begins again from it where its last step led; and a book whose
    // end isn't torn has all that it had
    ensures again { StopsBeginAgain }
    // whichever of a run's entries a power cut leaves, and however much of the next one, the machine
    // begins again from them where the run was when it had kept those
    ensures power_cut { PowerCutsAreSurvived }
    // turn 0, in which it hears that nobody is there any more, makes of it what a script's `stop` makes
    // of its machine
    ensures stop { StopIsTurnZero }
    // what the machine owns is read off the bytes of the log
    ensures owns { KeptLogTellsOwn }
    // behind turn 0 the run is one as without a book, and that of a new machine is so from its beginning
    ensures as_ever { KeptRunsAreRuns }
    ensures anew { NewMachinesRunAsEver }
    // so the sentences of `node_main` hold: of each way of a run; where the neighbours are, of one behind
    // turn 0; of connections and of neighbours that run so too, of one that a new machine began
    ensures bounded { TextIsBounded }
    ensures settles { SettingsAreTheLast }
    ensures connections { ConnectionsAreInOrder }
    ensures since { NothingOldIsSent }
    ensures runs { NodesRun Behind }
    ensures neighbours { NodesStand Behind }
    ensures woven { TcpIsEnough Behind }
    ensures over_tcp { PouredStand Behind }
    ensures logs { PouredLogRight Behind }
{
    law_node_runs::kept_runs::what_a_machine_owns_is_read_off_its_log();
    law_node_runs::kept_runs::behind_turn_0_a_run_is_as_ever();
    law_node_runs::kept_runs::a_new_machine_runs_as_ever();
    node_run::laws::too_much_text_closes_a_way();
    node_run::laws::the_settings_are_those_of_the_last_set();
    node_run::laws::the_entries_are_the_steps();
    law_node_runs::kept_runs::a_run_over_a_book_is_one();
    law_node_runs::kept_runs::the_call_of_a_move_comes_before_its_step();
    law_node_runs::kept_runs::a_power_cut_is_survived();
    law_node_runs::node_connections::the_bytes_of_a_connection_are_in_order();
    law_node_runs::node_connections::nothing_old_is_sent();
    law_joined_nodes::joined_nodes::woven_nodes_run_behind_the_reading();
    law_joined_nodes::joined_ports::what_carries_bytes_in_order_is_enough();
    law_joined_nodes::joined_logs::the_merged_log_over_tcp_is_right();
    law_stops::laws::a_stop_is_turn_0();
    restart_book::laws::a_book_has_one_answer();
    restart_book::laws::a_kept_book_is_resumed();
    run_with_book(alloc, words, file, ports, clock, log, book)
}
