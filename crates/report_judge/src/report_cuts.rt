//! The text of a scene and the bytes of a report in one text.

ghost use Rattle.std.specs.Prelude.{◌≡◌, ◌++◌, ◌∷◌, ◌==◌, ◌≤◌, true, IfNone, IfSome, length};
ghost use Rattle.std.specs.List.{position_or_len};
ghost use Rattle.report_judge.specs.Texts.ReportCuts.{HasNoReportLine, IsCutAtReport, has_no_feed};

/// The line between a scene and a report.
const REPORT_LINE: &str = "report";

/// The byte that ends a line.
const LINE_FEED: u8 = b'\n';

/// The text of a scene and the bytes of a report, between which the first line of a text stands that is exactly `report`; `None` exactly
/// if no line is. If it is the last line, its line feed may be missing, and the report has no bytes. O(n) for n bytes up to that line.
pub fn cut_at_report(text: &[u8]) -> Option<(&[u8], &[u8])>
    ensures some { IfSome result (λ both. IsCutAtReport text.now both.0.now both.1.now) }
    ensures none { IfNone result (HasNoReportLine text.now) }
{
    let mut rest = text;
    'lines: while let Some((line, after)) = next_whole_line(rest) {
        if line == REPORT_LINE.as_bytes() {
            return Some((&text[..text.len() - rest.len()], after));
        }
        rest = after;
    }
    if rest == REPORT_LINE.as_bytes() {
        return Some((&text[..text.len() - rest.len()], &[]));
    }
    None
}

/// The first line of a text and what stands after its line feed; `None` exactly if the text has no line feed. O(n) for n bytes of the line.
fn next_whole_line(text: &[u8]) -> Option<(&[u8], &[u8])>
    ensures some { IfSome result (λ found. (text.now ≡ found.0.now ++ 10 ∷ found.1.now) × (has_no_feed found.0.now ≡ true)) }
    ensures none { IfNone result (has_no_feed text.now ≡ true) }
{
    let end = count_before_feed(text);
    if end == text.len() {
        return None;
    }
    Some((&text[..end], &text[end + 1..]))
}

/// How many bytes stand before the first line feed, or in all if there is none.
fn count_before_feed(text: &[u8]) -> usize
    ensures place { result ≡ position_or_len (λ b. b == 10) text.now }
    ensures within { result ≤ length text.now }
{
    text.iter().take_while(|byte| **byte != LINE_FEED).count()
}
