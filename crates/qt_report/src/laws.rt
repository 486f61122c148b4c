//! Laws of reports, for those who build on them. The functions do nothing: what they promise is the law.
ghost use Rattle.std.specs.Prelude.{◌≡◌, All};
ghost use Rattle.std.specs.List.{concat};
ghost use Rattle.qt_report.specs.Lines.{IsLine, IsUnbroken, report_lines};
ghost use Rattle.qt_report.specs.Report.{report_text};

use crate::distribution::Distribution;

/// A report is its lines in a row. Where no name has a line feed, each line ends in its only one.
pub fn lines(of: &Distribution)
    ensures whole { concat (report_lines of.now) ≡ report_text of.now }
    ensures each { All (λ register. IsUnbroken register.name) of.now.layout → All IsLine (report_lines of.now) }
{}
