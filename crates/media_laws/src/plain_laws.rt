// What holds of every run of plain sessions.
ghost use Rattle.media_laws.specs.RepairedRun.{RepairsMeetThePremises};
ghost use Rattle.run_model.specs.Whole.{RunsAnswer, RunsAnswerPartly, RunsAskTheDue, RunsRepeatNoIndex, RunsRepeatNoNonce, RunsYieldExactly, RunsYieldOnce, RunsYieldWrites};
ghost use Rattle.run_model.specs.Asking.{RoundsAskTheDue};
ghost use Rattle.run_model.specs.Tables.{NoNonceTwice};
ghost use Rattle.run_model.specs.Runs.{StreamsYieldWrites};
ghost use Rattle.run_model.specs.RxLaws.{NoneTwice, RecordsHoldLists};
ghost use Rattle.run_model.specs.TxLaws.{CutTicksAnswer, StreamsSendWrites, TicksAnswer};

/// Each tick of a stream seals all that waits and, where the stream is not capped, a repair for
/// each number asked for that has to be held.
pub fn ticks_answer()
    ensures { TicksAnswer }
{}

/// Each tick of a stream that is cut off seals the first of what waits and, in order, repairs for
/// some of the numbers asked for.
pub fn cut_ticks_answer()
    ensures { CutTicksAnswer }
{}

/// First sendings are the writes in order, none twice; repairs carry writes that were sent; also
/// where the last tick was cut off.
pub fn streams_send_writes()
    ensures { StreamsSendWrites }
{}

/// The record of an incoming stream holds the lists that are read off the events.
pub fn records_hold_lists()
    ensures { RecordsHoldLists }
{}

/// No incoming stream yields a number twice, restored numbers among them.
pub fn none_twice()
    ensures { NoneTwice }
{}

/// In a genuine run whose repairs widen, each packet that a stream yields is an earlier write of
/// the other side.
pub fn streams_yield_writes()
    ensures { StreamsYieldWrites }
{}

/// No two RTP datagrams of a side share SSRC and number.
pub fn no_nonce_twice()
    ensures { NoNonceTwice }
{}

/// Each tick asks on each stream for exactly the numbers that are due by the events before: in a
/// round in which the stream takes part all of them, and else none.
pub fn rounds_ask_the_due()
    ensures { RoundsAskTheDue }
{}

/// No two RTP datagrams of a direction of a run share a nonce, also where its last tick was cut
/// off.
pub fn runs_repeat_no_nonce()
    ensures { RunsRepeatNoNonce }
{}

/// No stream of a run yields a number twice.
pub fn runs_yield_once()
    ensures { RunsYieldOnce }
{}

/// In a genuine run whose repairs widen, each packet that is yielded is an earlier write of the
/// other side.
pub fn runs_yield_writes()
    ensures { RunsYieldWrites }
{}

/// Each tick of a run asks for exactly the numbers that are due.
pub fn runs_ask_the_due()
    ensures { RunsAskTheDue }
{}

/// Each tick of a run answers on each outgoing stream.
pub fn runs_answer()
    ensures { RunsAnswer }
{}

/// Each tick of a run that is cut off answers in part on each outgoing stream.
pub fn runs_answer_partly()
    ensures { RunsAnswerPartly }
{}

/// The datagram of a write is yielded exactly where its number widens to itself and is fresh.
pub fn runs_yield_exactly()
    ensures { RunsYieldExactly }
{}

/// There is a run in which a packet is lost, asked for, repaired and yielded, and which meets the
/// premises of the laws of runs.
pub fn repairs_happen()
    ensures { RepairsMeetThePremises }
{}

/// No two RTCP datagrams of a direction of a run share an index, also where its last tick was cut
/// off.
pub fn runs_repeat_no_index()
    ensures { RunsRepeatNoIndex }
{}
