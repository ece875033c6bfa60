//! Laws of files whose source texts are joined.

ghost use Rattle.ti_files.specs.WrappedLaws.{CertificateStays, CompiledStays, LinesStay, SourceIsJoined};

/// Law: compiled files and certificates are read as they are; a source has the joined lines, and each file as many
/// lines as before.
pub fn others_stay()
    ensures compiled { CompiledStays }
    ensures certificate { CertificateStays }
    ensures source { SourceIsJoined }
    ensures lines { LinesStay }
{}
