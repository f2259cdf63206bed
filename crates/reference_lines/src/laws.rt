//! A law on the lines of texts.
ghost use Rattle.reference_lines.specs.RefsText.{PrintsOneWay};

/// A text has one list of lines at most: it names one location, or means one reference, but never both.
pub fn prints_one_way()
    ensures { PrintsOneWay }
{}
