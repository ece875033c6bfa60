//! The command `feed` with options.

ghost use Rattle.std.specs.Prelude.{◌≡◌, IfErr, IfOk};
ghost use Rattle.vt_term.specs.{Run.{Runs}, Screen.{reset}};
ghost use Rattle.ti_requests.specs.declared.feeds.FeedForm.TheVariants as forms;
ghost use Rattle.ti_commands.specs.States.{FailsFed, FailsToShow, IsBadLineFailure, ShowsFed, ShowsStates};
ghost use Rattle.ti_commands.specs.States.{fed_of, line_text, note_of, notes_of};

use crate::fed::{Fed, stuck_failure};
use crate::feeds::screen_after;
use crate::ignored::{ignored_items, ignored_lines};
use std::alloc::{AllocError, Global};
use ti_files::{
    CommandRefusal, Failure, Files, LONGEST_FILE, Remarks, Replied, Reply, read_whole, size_words,
};
use ti_requests::{FeedForm, FeedWords};
use vt_states::{
    CaseFault, Snapshot, case_answers, list_member, plain_recording, without_script_lines,
};

/// Feeds the file of the `words` to a terminal in its reset state, and shows the state that it
/// leaves in the form that they ask for; or the states of all cases of the file. From a recording
/// the lines of script(1) and strings are dropped and characters above 127 are replaced first, and
/// the notes say how many.
pub fn feed_state<F: Files>(
    alloc: Global,
    words: &FeedWords<'_>,
    files: &mut F,
    remarks: &mut Remarks,
) -> Replied
    ensures reply { IfOk result (λ reply. ShowsStates (F.holds files.old) words.now reply) }
    ensures failure { IfErr result (λ e. FailsToShow (F.holds files.old) words.now e) }
    ensures kept { F.holds files.new ≡ F.holds files.old }
{
    let size = size_words(alloc, words.rows, words.cols, remarks)?;
    let bytes = read_whole(alloc, files, words.file, LONGEST_FILE, remarks)?;
    let (plain, notes) = fed_bytes(alloc, words.plain_text, bytes)?;
    let fed = Fed {
        size,
        path: words.file,
        bytes: plain.as_slice(),
        is_plain: words.plain_text,
    };
    let text = shown(alloc, words.form, fed, remarks)?;
    Ok(Reply {
        notes,
        text,
        failure: None,
    })
}

/// The bytes of a file that the terminal gets, and the notes about them.
fn fed_bytes(
    alloc: Global,
    plain_text: bool,
    bytes: Vec<u8>,
) -> Result<(Vec<u8>, Vec<u8>), AllocError>
    ensures { IfOk result (λ fed. (fed.0.items ≡ fed_of plain_text bytes.items)
        × (fed.1.items ≡ notes_of plain_text bytes.items)) }
{
    if plain_text {
        let recording = plain_recording(alloc, without_script_lines(bytes.as_slice()))?;
        let note = note(alloc, recording.dropped, recording.replaced)?;
        Ok((recording.text, note))
    } else {
        Ok((bytes, Vec::new(alloc)))
    }
}

/// The note about a recording; empty if nothing was dropped or replaced.
fn note(alloc: Global, dropped: usize, replaced: usize) -> Result<Vec<u8>, AllocError>
    ensures { IfOk result (λ text. text.items ≡ note_of dropped replaced) }
{
    if dropped == 0 && replaced == 0 {
        return Ok(Vec::new(alloc));
    }
    let text = format!(in alloc;
        "plain-text: {dropped} bytes of strings dropped, {replaced} characters shown as ?\n"
    )?;
    Vec::from_slice(alloc, text.as_bytes())
}

/// The output in this form after the bytes that a terminal is fed with.
fn shown(
    alloc: Global,
    form: FeedForm,
    fed: Fed<'_>,
    remarks: &mut Remarks,
) -> Result<Vec<u8>, Failure>
    ensures text { IfOk result (λ text. ShowsFed form fed.entry text.items) }
    ensures failure { IfErr result (λ e. FailsFed form fed.entry e) }
{
    match form {
        FeedForm::Screen => screen_after(alloc, fed, remarks),
        FeedForm::State => lines_after(alloc, fed, remarks),
        FeedForm::Json => object_after(alloc, fed, remarks),
        FeedForm::Cases => answers_to(alloc, fed, remarks),
    }
}

/// The whole state after the bytes, as lines, and a line for each kind of sequence that had no effect.
fn lines_after(alloc: Global, fed: Fed<'_>, remarks: &mut Remarks) -> Result<Vec<u8>, Failure>
    ensures text { IfOk result (λ text. ShowsFed forms.State fed.entry text.items) }
    ensures failure { IfErr result (λ e. FailsFed forms.State fed.entry e) }
{
    let snapshot = state_after(alloc, fed, remarks)?;
    let mut text = snapshot.print(alloc)?;
    let lines = ignored_lines(alloc, fed.bytes)?;
    text.extend_from_slice(lines.as_slice())?;
    Ok(text)
}

/// The whole state after the bytes, as an object whose first member lists the kinds of sequences that had no effect,
/// and an LF.
fn object_after(alloc: Global, fed: Fed<'_>, remarks: &mut Remarks) -> Result<Vec<u8>, Failure>
    ensures text { IfOk result (λ text. ShowsFed forms.Json fed.entry text.items) }
    ensures failure { IfErr result (λ e. FailsFed forms.Json fed.entry e) }
{
    let snapshot = state_after(alloc, fed, remarks)?;
    let items = ignored_items(alloc, fed.bytes)?;
    let front = list_member(alloc, b"no_effect", items.as_slice())?;
    let mut text = Vec::new(alloc);
    snapshot.push_object(alloc, front.as_slice(), &mut text)?;
    text.push(b'\n')?;
    Ok(text)
}

/// The whole state after the bytes.
fn state_after<'a>(
    alloc: Global,
    fed: Fed<'a>,
    remarks: &mut Remarks,
) -> Result<Snapshot<'a>, Failure>
    ensures state { IfOk result
        (λ after. Runs (reset fed.entry.size.rows fed.entry.size.cols) fed.entry.bytes.now after) }
    ensures failure { IfErr result (λ e. FailsFed forms.State fed.entry e) }
{
    match Snapshot::after(alloc, fed.size, fed.bytes)? {
        (snapshot, None) => Ok(snapshot),
        (_, Some(stuck)) => Err(stuck_failure(alloc, fed, stuck, remarks)),
    }
}

/// The answers to the cases of the file.
fn answers_to(alloc: Global, fed: Fed<'_>, remarks: &mut Remarks) -> Result<Vec<u8>, Failure>
    ensures text { IfOk result (λ text. ShowsFed forms.Cases fed.entry text.items) }
    ensures failure { IfErr result (λ e. FailsFed forms.Cases fed.entry e) }
{
    match case_answers(alloc, fed.size, fed.bytes) {
        Ok(text) => Ok(text),
        Err(CaseFault::NoMemory) => Err(Failure::NoMemory),
        Err(CaseFault::BadLine(line)) => {
            remarks.add(fed.path.as_bytes(), case_words(fed.bytes, line));
            Err(bad_line(alloc, line))
        }
    }
}

/// The reason why the line of this number in a file of cases, which has these `bytes`, isn't a case: it lacks its LF,
/// or has another form.
fn case_words(bytes: &[u8], line: usize) -> &'static [u8] {
    let ended = bytes.iter().filter(|byte| **byte == b'\n').count();
    if line > ended {
        b": its last line has no LF at its end"
    } else {
        b": a line of it is a name, a space, and bytes in hexadecimal, or a dash for none"
    }
}

/// The failure of a file of cases with a line that isn't a case.
fn bad_line(alloc: Global, line: usize) -> Failure
    ensures { IsBadLineFailure line result }
{
    match line_words(alloc, line) {
        Ok(words) => Failure::Refused(CommandRefusal::Verdict(words)),
        Err(_) => Failure::NoMemory,
    }
}

fn line_words(alloc: Global, line: usize) -> Result<Vec<u8>, AllocError>
    ensures { IfOk result (λ words. words.items ≡ line_text line) }
{
    let words = format!(in alloc; "line {line}: BadLine")?;
    Vec::from_slice(alloc, words.as_bytes())
}
