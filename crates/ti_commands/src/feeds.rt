//! The command `feed`.

ghost use Rattle.std.specs.Prelude.{◌≡◌, IfErr, IfOk};
ghost use Rattle.ti_requests.specs.declared.feeds.FeedForm.TheVariants as forms;
ghost use Rattle.ti_commands.specs.{Feeds.{FailsToFeed, ShowsScreen}, States.{FailsFed, ShowsFed}};

use crate::fed::{Fed, stuck_failure};
use crate::ignored::remark_ignored;
use std::alloc::Global;
use ti_files::{Failure, Files, LONGEST_FILE, Remarks, Replied, Reply, read_whole, size_words};
use vt_term::Terminal;

/// Feeds the file at `path` to a terminal in its reset state, and shows its screen. `rows` and
/// `cols` are the words ROWS and COLS of the line.
pub fn feed_file<F: Files>(
    alloc: Global,
    rows: &str,
    cols: &str,
    path: &str,
    files: &mut F,
    remarks: &mut Remarks,
) -> Replied
    ensures reply { IfOk result (λ reply. ShowsScreen (F.holds files.old) rows.now cols.now path.now reply) }
    ensures failure { IfErr result (λ e. FailsToFeed (F.holds files.old) rows.now cols.now path.now e) }
    ensures kept { F.holds files.new ≡ F.holds files.old }
{
    let size = size_words(alloc, rows, cols, remarks)?;
    let bytes = read_whole(alloc, files, path, LONGEST_FILE, remarks)?;
    let fed = Fed {
        size,
        path,
        bytes: bytes.as_slice(),
        is_plain: false,
    };
    let text = screen_after(alloc, fed, remarks)?;
    Ok(Reply::of_text(alloc, text))
}

/// The screen of a terminal after the bytes that it is fed with. A line is added to `remarks` for each kind of sequence
/// that had no effect.
pub fn screen_after(alloc: Global, fed: Fed<'_>, remarks: &mut Remarks) -> Result<Vec<u8>, Failure>
    ensures text { IfOk result (λ text. ShowsFed forms.Screen fed.entry text.items) }
    ensures failure { IfErr result (λ e. FailsFed forms.Screen fed.entry e) }
{
    let mut terminal = Terminal::new(alloc, fed.size)?;
    match terminal.feed(fed.bytes) {
        Ok(()) => {
            let text = terminal.print_screen(alloc)?;
            remark_ignored(alloc, fed.bytes, remarks)?;
            Ok(text)
        }
        Err(stuck) => Err(stuck_failure(alloc, fed, stuck, remarks)),
    }
}
