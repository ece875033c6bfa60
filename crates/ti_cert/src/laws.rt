//! Laws of certificates' texts.

ghost use Rattle.ti_cert.specs.Basic.{BasicAccepted, BasicAgrees, BasicAlone};
ghost use Rattle.ti_cert.specs.Disagreements.{DisagreementExcludesYes};
ghost use Rattle.ti_cert.specs.Texts.{
  AcceptsCertificates,
  IsAcceptedCertificate,
  IsThatOfCertificate,
  OneAnswer,
  OneTable,
  NoOther,
  OneFault,
};

/// A text has one answer: the meaning of its lines, or its first fault in one line. So an audit of a text has the same
/// result each time, unless memory runs out: tables with the same pairs and strings, or the same fault.
pub fn one_answer()
    ensures answer { OneAnswer }
    ensures table { OneTable }
    ensures other { NoOther }
    ensures fault { OneFault }
{}

/// A text that is accepted is that of a certificate: ASCII, the size, the pairs of alternate characters, if there are
/// any, the lines about capabilities, each in its place and with the effect that is asked for, none missing, and the
/// last line.
pub fn accepted_text()
    ensures { IsThatOfCertificate }
{}

/// The text of a certificate is accepted, with its pairs and lines, if all its lines go together.
pub fn certificate_accepted()
    ensures { IsAcceptedCertificate }
{}

/// A text is accepted, with these pairs and lines, exactly if it is that of a certificate whose lines go together.
pub fn accepted_exactly()
    ensures { AcceptsCertificates }
{}

/// The certificate of a basic entry is accepted, for every size. So no audit finds a fault in it.
pub fn basic_text_accepted()
    ensures { BasicAccepted }
{}

/// The table of a basic entry's certificate has exactly what the entry sends.
pub fn basic_text_agrees()
    ensures { BasicAgrees }
{}

/// For a basic entry, no other text is accepted with exactly the lines that it sends.
pub fn basic_text_alone()
    ensures { BasicAlone }
{}

/// A certificate that has a disagreement with an entry isn't that of the entry: `agrees` doesn't accept it.
pub fn disagreement_excludes_yes()
    ensures { DisagreementExcludesYes }
{}
