// The top call of the program.
ghost use Rattle.std.specs.Prelude.{◌≡◌, ◌≢◌, ◌⊎◌, ◌+◌, ◌-◌, ◌^◌, ◌<◌, ◌≤◌, ℕ, List, None, Some, Ok, Result, map, string_bytes};
ghost use Rattle.std.specs.Io.KnownBytes.{Appends};
ghost use Rattle.fc_base.specs.Causes.{Rose};
ghost use Rattle.fc_base.specs.Content.{IsFlushed};
ghost use Rattle.fc_words.specs.Commands.{command_of};
ghost use Rattle.fc_words.specs.declared.commands.Command.TheVariants as meant;
ghost use Rattle.fc_endings.specs.declared.stops.Stop.{Stop};
ghost use Rattle.fc_controlling.specs.ControlRun.{control_status};
ghost use Rattle.fc_controlling.specs.Runs.{ControlRuns};
ghost use Rattle.fc_rounds.specs.Lines.{HasOneWord, HasReported, OneWord};
ghost use Rattle.fc_rounds.specs.Promise.{HadOnePlan, HasAgreed, HasFolded, HasSettled, HasSettledOnce, HasTold, IsFenced, WasReady};
ghost use Rattle.fc_generating.specs.Runs.{GenRuns, gen_status};
ghost use Rattle.fc_playing.specs.Promised.{AtEachStep};
ghost use Rattle.fc_playing.specs.Runs.{PlayRuns, WasPlayed};
ghost use Rattle.fc_playing.specs.WorldRun.{play_status};
ghost use Rattle.fc_scripts.specs.Scripts.{Scripted, script_of};
ghost use Rattle.fc_serving.specs.ElementRun.{element_status};
ghost use Rattle.fc_serving.specs.Runs.{ElementRuns};
ghost use Rattle.fc_endings.specs.Limits.{most_bytes};
ghost use Rattle.fc_tool.specs.Make.{make_status};
ghost use Rattle.fc_tool.specs.Run.{UsageEnds, asked_for, usage_status};
ghost use Rattle.fc_tool.specs.Runs.{MakeRuns, ShowRuns};
ghost use Rattle.fc_tool.specs.Show.{status_of};
ghost use Rattle.fc_endings.specs.Stops.{FlushedAt, SinkCount};

use crate::make::{Made, make};
use crate::show::{Shown, show};
use crate::status::{
    DEPOSED, DONE, HUB_FAULT, NO_COMMAND, NO_MEMORY, NO_MESSAGE, NO_ROUND, READ_FAULT, REFUSED,
    TOO_LONG, TURNS, UNFINISHED, WRITE_FAULT,
};
use fc_base::{CeId, List, Sink, Source, Text};
use fc_controlling::{Asked, ControlEnd, control};
use fc_endings::{Stop, finish, put};
use fc_generating::generate;
use fc_hub::{Hub, Rounds};
use fc_playing::{PlayEnd, world};
use fc_serving::{ElementEnd, element};
use fc_words::{Command, WordFault, command};
use std::alloc::Global;

/// Does what the words say, and gives the status of the program.
pub fn run<S: Source, K: Sink, H: Hub, R: Rounds>(
    alloc: Global,
    words: &[String],
    input: &mut S,
    out: &mut K,
    hub: &mut H,
    rounds: &mut R,
) -> u8
    requires { (R.given rounds.old).count < 2 ^ 64 - 1 }

    // The status is 1 exactly where the words are no command, unless the line can't be written; then nothing is read.
    ensures no_command { result ≡ NO_COMMAND → command_of (map string_bytes words.now) ≡ None }
    ensures usage { command_of (map string_bytes words.now) ≡ None
        → (how : Result (Unit {0}) Stop) × (result ≡ usage_status how) × UsageEnds how (K.written out.old) (K.written out.new) }
    ensures unread { command_of (map string_bytes words.now) ≡ None → input.new ≡ input.old }

    // What each command reads and writes and with which status, and by what alone that is decided where nothing fails.
    ensures show { command_of (map string_bytes words.now) ≡ Some meant.Show
        → ShowRuns most_bytes result (S.left input.old) (S.left input.new) (K.written out.old) (K.written out.new)
        (Rose (S.faults input.old) (S.faults input.new)) (Rose (K.faults out.old) (K.faults out.new)) }
    ensures make { command_of (map string_bytes words.now) ≡ Some meant.Make
        → MakeRuns most_bytes result (S.left input.old) (S.left input.new) (K.written out.old) (K.written out.new)
        (Rose (S.faults input.old) (S.faults input.new)) (Rose (K.faults out.old) (K.faults out.new)) }
    ensures world { command_of (map string_bytes words.now) ≡ Some meant.World
        → PlayRuns most_bytes result (S.left input.old) (S.left input.new) (K.written out.old) (K.written out.new)
        (Rose (S.faults input.old) (S.faults input.new)) (Rose (K.faults out.old) (K.faults out.new)) }

    // A script that was played keeps the promise at every moment of it: its elements agree on each transaction, and each settles it once; they complete only
    // what every participant had prepared, and all had opened with the same participants; what is settled at each of them is the fold of what it has
    // completed; no Config of a life that it has replaced changes it; what a control element counts as settled was settled so; its records tell what was
    // settled there, so far as it has not forgotten; and so does the report, so that no transaction is completed in one line of it and aborted in another.
    // After status 0 that is from the first step to the last, all of which were made. After status 5 it is up to the step that can't be made; where the
    // document means no script, nothing was played. After status 3 it is one or the other, where the document could be read and is no longer than is looked
    // at. After every other status nothing is said of it: a document that can't be read or is too long is not played, and one that ends for want of memory is
    // cut short.
    ensures agree { (document : List ℕ) (s : Scripted) → command_of (map string_bytes words.now) ≡ Some meant.World → S.left input.old ≡ Some document
        → WasPlayed most_bytes result document (Rose (S.faults input.old) (S.faults input.new)) → script_of document ≡ Ok s → AtEachStep HasAgreed s }
    ensures once { (document : List ℕ) (s : Scripted) → command_of (map string_bytes words.now) ≡ Some meant.World → S.left input.old ≡ Some document
        → WasPlayed most_bytes result document (Rose (S.faults input.old) (S.faults input.new)) → script_of document ≡ Ok s → AtEachStep HasSettledOnce s }
    ensures ready { (document : List ℕ) (s : Scripted) → command_of (map string_bytes words.now) ≡ Some meant.World → S.left input.old ≡ Some document
        → WasPlayed most_bytes result document (Rose (S.faults input.old) (S.faults input.new)) → script_of document ≡ Ok s → AtEachStep WasReady s }
    ensures one_plan { (document : List ℕ) (s : Scripted) → command_of (map string_bytes words.now) ≡ Some meant.World → S.left input.old ≡ Some document
        → WasPlayed most_bytes result document (Rose (S.faults input.old) (S.faults input.new)) → script_of document ≡ Ok s → AtEachStep HadOnePlan s }
    ensures folded { (document : List ℕ) (s : Scripted) → command_of (map string_bytes words.now) ≡ Some meant.World → S.left input.old ≡ Some document
        → WasPlayed most_bytes result document (Rose (S.faults input.old) (S.faults input.new)) → script_of document ≡ Ok s → AtEachStep HasFolded s }
    ensures fenced { (document : List ℕ) (s : Scripted) → command_of (map string_bytes words.now) ≡ Some meant.World → S.left input.old ≡ Some document
        → WasPlayed most_bytes result document (Rose (S.faults input.old) (S.faults input.new)) → script_of document ≡ Ok s → AtEachStep IsFenced s }
    ensures settled { (document : List ℕ) (s : Scripted) → command_of (map string_bytes words.now) ≡ Some meant.World → S.left input.old ≡ Some document
        → WasPlayed most_bytes result document (Rose (S.faults input.old) (S.faults input.new)) → script_of document ≡ Ok s → AtEachStep HasSettled s }
    ensures told { (document : List ℕ) (s : Scripted) → command_of (map string_bytes words.now) ≡ Some meant.World → S.left input.old ≡ Some document
        → WasPlayed most_bytes result document (Rose (S.faults input.old) (S.faults input.new)) → script_of document ≡ Ok s → AtEachStep HasTold s }
    ensures reported { (document : List ℕ) (s : Scripted) → command_of (map string_bytes words.now) ≡ Some meant.World → S.left input.old ≡ Some document
        → WasPlayed most_bytes result document (Rose (S.faults input.old) (S.faults input.new)) → script_of document ≡ Ok s → AtEachStep HasReported s }
    ensures one_word { (document : List ℕ) (s : Scripted) → command_of (map string_bytes words.now) ≡ Some meant.World → S.left input.old ≡ Some document
        → WasPlayed most_bytes result document (Rose (S.faults input.old) (S.faults input.new)) → script_of document ≡ Ok s → AtEachStep HasOneWord s }

    // So what `world` has written after status 0 is a report in which no transaction is completed in one line and aborted in another.
    ensures one_report { command_of (map string_bytes words.now) ≡ Some meant.World → result ≡ DONE
        → (written : List ℕ) × Appends (K.written out.old) (K.written out.new) written × OneWord written }

    // A large run reads nothing, and what it writes is the summary of its last world.
    ensures large { (n : ℕ) → command_of (map string_bytes words.now) ≡ Some (meant.Gen n)
        → GenRuns n result (K.written out.old) (K.written out.new) (Rose (K.faults out.old) (K.faults out.new)) × (input.new ≡ input.old) }

    ensures element { (fe ce : ℕ) (address : List ℕ) (connections turns : ℕ)
        → command_of (map string_bytes words.now) ≡ Some (meant.Element fe ce address connections turns)
        → ElementRuns most_bytes fe ce turns result (S.left input.old) (S.left input.new) (H.held hub.old) (H.held hub.new) (K.written out.old) (K.written out.new)
        (S.faults input.old, S.faults input.new) (K.faults out.old, K.faults out.new) (H.faults hub.old, H.faults hub.new) }

    ensures control { (ce : ℕ) (rounds_file : List ℕ) (connections turns : ℕ) (addresses : List (List ℕ))
        → command_of (map string_bytes words.now) ≡ Some (meant.Control ce rounds_file connections turns addresses)
        → ControlRuns most_bytes (asked_for ce turns addresses) result (S.left input.old) (S.left input.new) (R.given rounds.old) (R.given rounds.new) (H.held hub.old) (H.held hub.new) (K.written out.old) (K.written out.new)
        (S.faults input.old, S.faults input.new) (K.faults out.old, K.faults out.new) (H.faults hub.old, H.faults hub.new) (R.faults rounds.old, R.faults rounds.new) }

    // Only `element` and `control` use the hub, and only `control` the rounds, of which it takes one number at most.
    ensures hub { ((fe ce : ℕ) (address : List ℕ) (connections turns : ℕ)
        → command_of (map string_bytes words.now) ≡ Some (meant.Element fe ce address connections turns) → ⊥)
        → ((ce : ℕ) (rounds_file : List ℕ) (connections turns : ℕ) (addresses : List (List ℕ))
        → command_of (map string_bytes words.now) ≡ Some (meant.Control ce rounds_file connections turns addresses) → ⊥) → hub.new ≡ hub.old }
    ensures rounds { ((ce : ℕ) (rounds_file : List ℕ) (connections turns : ℕ) (addresses : List (List ℕ))
        → command_of (map string_bytes words.now) ≡ Some (meant.Control ce rounds_file connections turns addresses) → ⊥) → rounds.new ≡ rounds.old }
    ensures one_round { (R.given rounds.new).count ≤ (R.given rounds.old).count + 1 }

    // A fault of reading, of writing, of the hub or of the rounds comes only where the count rose.
    ensures read_fault { result ≡ READ_FAULT → Rose (S.faults input.old) (S.faults input.new) }
    ensures write_fault { result ≡ WRITE_FAULT → Rose (K.faults out.old) (K.faults out.new) }
    ensures hub_fault { result ≡ HUB_FAULT → Rose (H.faults hub.old) (H.faults hub.new) ⊎ Rose (R.faults rounds.old) (R.faults rounds.new) }
    ensures source_steady { result ≢ READ_FAULT → result ≢ WRITE_FAULT → result ≢ NO_MEMORY → S.faults input.new ≡ S.faults input.old }
    ensures sink_steady { result ≢ WRITE_FAULT → K.faults out.new ≡ K.faults out.old }
    ensures hub_steady { result ≢ HUB_FAULT → result ≢ WRITE_FAULT → result ≢ NO_MEMORY → H.faults hub.new ≡ H.faults hub.old }
    ensures rounds_steady { result ≢ HUB_FAULT → result ≢ WRITE_FAULT → result ≢ NO_MEMORY → R.faults rounds.new ≡ R.faults rounds.old }

    // All that was written is flushed, or where the writing stopped so much as was before.
    ensures flushed { result ≢ WRITE_FAULT → result ≢ NO_MEMORY → IsFlushed (K.written out.new) (K.flushed out.new) }
    ensures unflushed { (result ≡ WRITE_FAULT) ⊎ (result ≡ NO_MEMORY) → K.flushed out.new ≡ K.flushed out.old }
{
    let meant = match command(alloc, words) {
        Ok(meant) => meant,
        Err(WordFault::NoCommand) => return usage_status(usage(out)),
        Err(WordFault::Memory) => return NO_MEMORY,
    };
    match meant {
        Command::Show => show_status(show(alloc, input, out)),
        Command::Make => make_status(make(alloc, input, out)),
        Command::World => play_status(world(alloc, input, out)),
        Command::Gen { transactions } => gen_status(generate(alloc, transactions, out)),
        Command::Element { fe, ce, turns, .. } => {
            element_status(element(alloc, fe, ce, turns, input, out, hub))
        }
        Command::Control {
            ce,
            turns,
            addresses,
            ..
        } => {
            let asked = asked_of(ce, turns, &addresses);
            control_status(control(alloc, &asked, input, out, hub, rounds))
        }
    }
}

// What the words of `control` ask for.
fn asked_of(ce: CeId, turns: u32, addresses: &List<Text>) -> Asked
    ensures { result ≡ asked_for ce turns addresses.now }
{
    Asked {
        ce,
        turns,
        addresses: addresses.len(),
    }
}

fn usage<K: Sink>(out: &mut K) -> Result<(), Stop>
    ensures ends { UsageEnds result (K.written out.old) (K.written out.new) }
    ensures flushed { FlushedAt result (K.written out.new) (K.flushed out.old) (K.flushed out.new) }
    ensures count { SinkCount result (K.faults out.old) (K.faults out.new) }
{
    put(out, b"usage\n")?;
    finish(out)
}

fn usage_status(how: Result<(), Stop>) -> u8
    ensures { result ≡ usage_status how }
{
    match how {
        Ok(()) => NO_COMMAND,
        Err(Stop::WriteFault) => WRITE_FAULT,
        Err(Stop::NoMemory) => NO_MEMORY,
    }
}

fn show_status(how: Result<Shown, Stop>) -> u8
    ensures { result ≡ status_of how }
{
    match how {
        Ok(Shown::Done) => DONE,
        Ok(Shown::ReadFault) => READ_FAULT,
        Ok(Shown::Refused) => NO_MESSAGE,
        Ok(Shown::TooLong) => TOO_LONG,
        Err(Stop::WriteFault) => WRITE_FAULT,
        Err(Stop::NoMemory) => NO_MEMORY,
    }
}

fn make_status(how: Result<Made, Stop>) -> u8
    ensures { result ≡ make_status how }
{
    match how {
        Ok(Made::Done) => DONE,
        Ok(Made::ReadFault) => READ_FAULT,
        Ok(Made::Refused) => REFUSED,
        Ok(Made::TooLong) => TOO_LONG,
        Err(Stop::WriteFault) => WRITE_FAULT,
        Err(Stop::NoMemory) => NO_MEMORY,
    }
}

fn play_status(how: Result<PlayEnd, Stop>) -> u8
    ensures { result ≡ play_status how }
{
    match how {
        Ok(PlayEnd::Done) => DONE,
        Ok(PlayEnd::ReadFault) => READ_FAULT,
        Ok(PlayEnd::Refused) => REFUSED,
        Ok(PlayEnd::TooLong) => TOO_LONG,
        Err(Stop::WriteFault) => WRITE_FAULT,
        Err(Stop::NoMemory) => NO_MEMORY,
    }
}

fn gen_status(how: Result<(), Stop>) -> u8
    ensures { result ≡ gen_status how }
{
    match how {
        Ok(()) => DONE,
        Err(Stop::WriteFault) => WRITE_FAULT,
        Err(Stop::NoMemory) => NO_MEMORY,
    }
}

fn element_status(how: Result<ElementEnd, Stop>) -> u8
    ensures { result ≡ element_status how }
{
    match how {
        Ok(ElementEnd::Done) => DONE,
        Ok(ElementEnd::ReadFault) => READ_FAULT,
        Ok(ElementEnd::HubFault) => HUB_FAULT,
        Ok(ElementEnd::Refused) => REFUSED,
        Ok(ElementEnd::Turns) => TURNS,
        Ok(ElementEnd::TooLong) => TOO_LONG,
        Err(Stop::WriteFault) => WRITE_FAULT,
        Err(Stop::NoMemory) => NO_MEMORY,
    }
}

fn control_status(how: Result<ControlEnd, Stop>) -> u8
    ensures { result ≡ control_status how }
{
    match how {
        Ok(ControlEnd::Done) => DONE,
        Ok(ControlEnd::ReadFault) => READ_FAULT,
        Ok(ControlEnd::HubFault) => HUB_FAULT,
        Ok(ControlEnd::RoundsFault) => HUB_FAULT,
        Ok(ControlEnd::Refused) => REFUSED,
        Ok(ControlEnd::Unfinished) => UNFINISHED,
        Ok(ControlEnd::Deposed) => DEPOSED,
        Ok(ControlEnd::Turns) => TURNS,
        Ok(ControlEnd::NoRound) => NO_ROUND,
        Ok(ControlEnd::TooLong) => TOO_LONG,
        Err(Stop::WriteFault) => WRITE_FAULT,
        Err(Stop::NoMemory) => NO_MEMORY,
    }
}
