//! Reports of hints about the fields of an entry's source text.

ghost use Rattle.std.specs.{Prelude.{◌≡◌, IfOk, OnOk, map, option_map}, List.{AllByRecursion}};
ghost use Rattle.ti_hints.specs.Places.{IsHintOf};
ghost use Rattle.ti_reports.specs.Hints.{IsHintPlace, hint_text, line_hinted, region_hinted, text_in};
ghost use Rattle.ti_reports.specs.Reports.{SaysWords};
ghost use Rattle.ti_reports.specs.Faults as spec;
ghost use Rattle.ti_source.specs.Layout.{lines_of};
ghost use Rattle.ti_verdicts.specs.Locations.{place_if, place_in};
ghost use Rattle.ti_sources.specs.LinedFiles.{file_text, line_of, put_files};

use crate::faults::{AllReported, Reported, Subject, cap_text, report_on};
use crate::places::{ValuePlace, holder};
use crate::reports::{Finding, Report, Verdict};
use std::alloc::{AllocError, Global};
use ti_caps::Cap;
use ti_commands::own_raws;
use ti_hints::{FieldHint, entry_hints, used_places};
use ti_resolve::Origin;
use ti_source::RawEntry;
use ti_sources::{FieldPlace, LinedFile, LinedFiles, LinedText, Region, begun_line, region_at};
use ti_verdicts::SourcePlace;

/// The fields of a source text about which there are hints.
#[derive(Clone, Copy, Debug, PartialEq, Eq)]
pub enum Hinted {
    /// None.
    Unhinted,
    /// The fields of the entry itself.
    Own,
    /// The fields of the entry, and of the entries of its file that it uses.
    WithUsed,
}

/// A report for each hint about those fields of the `subject` that are hinted at; none if it is in no source.
pub fn hint_reports(alloc: Global, subject: &Subject<'_, '_>) -> AllReported
    ensures { IfOk result (λ reports. spec.AreHints subject.now.entry.now subject.now.size.rows subject.now.size.cols
        subject.now.file.now (map file_text subject.now.originals.now) subject.now.hinted
        (place_if subject.now.stands.now) reports.items) }
{
    match subject.stands {
        None => Ok(Vec::new(alloc)),
        Some(there) => hints_at(alloc, subject, there),
    }
}

/// A report for each hint about those fields of the `subject`, which is at `there`, that are hinted at.
fn hints_at(alloc: Global, subject: &Subject<'_, '_>, there: &SourcePlace<'_, '_>) -> AllReported
    ensures { IfOk result (λ reports. spec.AreHintsAt subject.now.entry.now subject.now.size.rows
        subject.now.size.cols subject.now.file.now (map file_text subject.now.originals.now) subject.now.hinted
        (place_in there.now) reports.items) }
{
    match subject.hinted {
        Hinted::Unhinted => Ok(Vec::new(alloc)),
        Hinted::Own => own_hints(alloc, subject, there),
        Hinted::WithUsed => used_hints(alloc, subject, there),
    }
}

/// A report for each hint about the fields of the `subject`, which is at `there`.
fn own_hints(alloc: Global, subject: &Subject<'_, '_>, there: &SourcePlace<'_, '_>) -> AllReported
    ensures { IfOk result (λ reports. spec.AreAllIf (λ text. spec.ReportsHint subject.now.entry.now
        subject.now.size.rows subject.now.size.cols subject.now.file.now text there.now.place)
        (hint_text (map file_text subject.now.originals.now) (put_files there.now.files) there.now.raws.now)
        reports.items) }
{
    match hint_source(there.files, there.raws, subject.originals) {
        Some(source) => entry_reports(alloc, subject, &source, there.place),
        None => Ok(Vec::new(alloc)),
    }
}

/// A report for each hint about the fields of the `subject`, which is at `there`, and about those of the entries of its
/// file that it uses.
fn used_hints(alloc: Global, subject: &Subject<'_, '_>, there: &SourcePlace<'_, '_>) -> AllReported
    ensures { IfOk result (λ reports. spec.AreAllIf (spec.ReportsAnyHint subject.now.entry.now
        subject.now.size.rows subject.now.size.cols subject.now.file.now)
        (hint_text (map file_text subject.now.originals.now) (put_files there.now.files) there.now.raws.now)
        reports.items) }
{
    match hint_source(there.files, there.raws, subject.originals) {
        Some(source) => used_reports(alloc, subject, &source, there.place),
        None => Ok(Vec::new(alloc)),
    }
}

/// A source text about which hints are given.
#[derive(Drop)]
struct HintSource<'a, 'b> {
    /// The file's path.
    path: &'b str,
    /// The text.
    lined: &'a LinedText<'b>,
    /// Its entries.
    raws: &'b [RawEntry],
    /// The texts of those files whose lines were joined, as they were before.
    originals: &'a [LinedFile<'a>],
}

/// The first of these `files`, which have the entries `raws`; `None` if there is none.
fn hint_source<'a, 'b>(
    files: LinedFiles<'a, 'b>,
    raws: &'b [RawEntry],
    originals: &'a [LinedFile<'a>],
) -> Option<HintSource<'a, 'b>>
    ensures { option_map text_in result ≡ hint_text (map file_text originals.now) (put_files files.entry) raws.now }
{
    match files.files {
        [first, ..] => Some(HintSource {
            path: first.path,
            lined: &first.lined,
            raws: own_raws(raws, files.counts),
            originals,
        }),
        [] => None,
    }
}

/// A report for each hint about the `subject` in `source`: about the entry at `place`, and those that it uses.
fn used_reports(
    alloc: Global,
    subject: &Subject<'_, '_>,
    source: &HintSource<'_, '_>,
    place: usize,
) -> AllReported
    ensures { IfOk result (λ reports. spec.AreAll (spec.ReportsAnyHint subject.now.entry.now
        subject.now.size.rows subject.now.size.cols subject.now.file.now (text_in source.now)) reports.items) }
{
    let mut reports = Vec::new(alloc);
    for used in &used_places(alloc, source.raws, place)? {
        add_reports(alloc, subject, source, *used, &mut reports)?;
    }
    Ok(reports)
}

/// Adds to `reports` those of the hints about the `subject` in `source` that are about the entry at `place`.
fn add_reports(
    alloc: Global,
    subject: &Subject<'_, '_>,
    source: &HintSource<'_, '_>,
    place: usize,
    reports: &mut Vec<Report>,
) -> Result<(), AllocError>
    requires { spec.AreAll (spec.ReportsAnyHint subject.now.entry.now subject.now.size.rows subject.now.size.cols
        subject.now.file.now (text_in source.now)) reports.old.items }
    ensures { OnOk result (spec.AreAll (spec.ReportsAnyHint subject.now.entry.now subject.now.size.rows
        subject.now.size.cols subject.now.file.now (text_in source.now)) reports.new.items) }
{
    let mut own = entry_reports(alloc, subject, source, place)?;
    reports.append(&mut own)?;
    Ok(())
}

/// A report for each hint about the `subject` in `source` that is about the entry at `place`.
fn entry_reports(
    alloc: Global,
    subject: &Subject<'_, '_>,
    source: &HintSource<'_, '_>,
    place: usize,
) -> AllReported
    ensures { IfOk result (λ reports. spec.AreAll (spec.ReportsHint subject.now.entry.now
        subject.now.size.rows subject.now.size.cols subject.now.file.now (text_in source.now) place) reports.items) }
{
    let hints = hints_in(alloc, source, place)?;
    let mut reports = Vec::new(alloc);
    for hint in &hints {
        let report = hint_report(alloc, subject, source, place, hint)?;
        reports.push(report)?;
    }
    Ok(reports)
}

/// The hints about the entry at `place` of `source`.
fn hints_in(
    alloc: Global,
    source: &HintSource<'_, '_>,
    place: usize,
) -> Result<Vec<FieldHint>, AllocError>
    ensures { IfOk result (λ hints. AllByRecursion
        (IsHintOf (lines_of source.now.lined.now) source.now.raws.now place) hints.items) }
{
    entry_hints(alloc, source.lined.lines(), source.raws, place)
}

/// The report of the `hint` about the `subject` in `source`, a hint about the entry at `place`.
fn hint_report(
    alloc: Global,
    subject: &Subject<'_, '_>,
    source: &HintSource<'_, '_>,
    place: usize,
    hint: &FieldHint,
) -> Reported
    requires { IsHintOf (lines_of source.now.lined.now) source.now.raws.now place hint.now }
    ensures { IfOk result (spec.ReportsHint subject.now.entry.now
        subject.now.size.rows subject.now.size.cols subject.now.file.now (text_in source.now) place) }
{
    let finding = hint_finding(alloc, source, hint)?;
    report_on(alloc, subject, Verdict::Hint(hint.kind), None, finding)
}

/// The words and the place of the `hint` about a field of `source`.
fn hint_finding(
    alloc: Global,
    source: &HintSource<'_, '_>,
    hint: &FieldHint,
) -> Result<Finding, AllocError>
    ensures stands { IfOk result (λ finding. IsHintPlace (text_in source.now) hint.now finding.place) }
    ensures capability { IfOk result (λ finding. spec.IsCapIf hint.now.cap finding.capability) }
    ensures says { IfOk result (λ finding. SaysWords finding) }
{
    let capability = cap_if(alloc, hint.cap)?;
    let place = hint_place(alloc, source, hint)?;
    Finding::of_words(alloc, capability, place, hint.words.as_slice())
}

/// The name of `cap`, if there is one.
fn cap_if(alloc: Global, cap: Option<Cap>) -> Result<Option<String>, AllocError>
    ensures { IfOk result (λ text. spec.IsCapIf cap text) }
{
    match cap {
        Some(cap) => Ok(Some(cap_text(alloc, cap)?)),
        None => Ok(None),
    }
}

/// The place of the `hint` in `source`.
fn hint_place(
    alloc: Global,
    source: &HintSource<'_, '_>,
    hint: &FieldHint,
) -> Result<ValuePlace, AllocError>
    ensures { IfOk result (λ place. IsHintPlace (text_in source.now) hint.now place) }
{
    let names = Origin {
        entry: hint.entry,
        field: 0,
    };
    let region = hint_region(source, hint);
    Ok(ValuePlace {
        line: Some(begun_line(hint_line_of(source, hint), region).line),
        region,
        file: Some(String::from_str(alloc, source.path)?),
        entry: Some(holder(alloc, source.raws, names)?),
    })
}

/// The line of the `hint` in `source`.
fn hint_line_of<'b>(source: &HintSource<'_, 'b>, hint: &FieldHint) -> FieldPlace<'b>
    ensures { line_of result ≡ line_hinted (text_in source.now) hint.now }
{
    FieldPlace {
        path: source.path,
        line: hint.line,
    }
}

/// The region of the field that the `hint` in `source` is about, if it is about one.
fn hint_region(source: &HintSource<'_, '_>, hint: &FieldHint) -> Option<Region>
    ensures { result ≡ region_hinted (text_in source.now) hint.now }
{
    match hint.columns {
        Some(columns) => Some(region_at(source.originals, hint_line_of(source, hint), columns)),
        None => None,
    }
}
