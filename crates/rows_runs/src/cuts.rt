//! A whole design, cut at each of its bytes.
use crate::runs::audited;
use row_designs::{CHIP, CHIP_CONSTRAINTS};
use std::alloc::Global;
use std::process::Abort;
use std::test::Fail;

/// The last cut of each span of cuts with one answer, in bytes, and the line of that answer. Where there is none, the
/// text has no reading at its end: a form that is open there could go on. Cuts inside a word, a number or a mark have no
/// reading where that piece begins, if it is no token that may stand there.
const SPANS: [(usize, &str); 46] = [
    (0, "error E301: no top module: chip"),
    (1, "error E104: directive left out at 1:1"),
    (2, "error E104: directive left out at 1:1: t"),
    (3, "error E104: directive left out at 1:1: ti"),
    (4, "error E104: directive left out at 1:1: tim"),
    (5, "error E104: directive left out at 1:1: time"),
    (6, "error E104: directive left out at 1:1: times"),
    (7, "error E104: directive left out at 1:1: timesc"),
    (8, "error E104: directive left out at 1:1: timesca"),
    (9, "error E104: directive left out at 1:1: timescal"),
    (16, "error E104: directive left out at 1:1: timescale"),
    (19, "error E301: no top module: chip"),
    (24, "error E201: no reading at 2:1"),
    (34, ""),
    (42, "error E201: no reading at 2:16"),
    (114, ""),
    (115, "error E201: no reading at 3:3"),
    (137, "error E102: unfinished comment or attribute at 3:3"),
    (180, ""),
    (181, "error E201: no reading at 4:24"),
    (221, ""),
    (222, "error E201: no reading at 5:24"),
    (239, ""),
    (240, "error E201: no reading at 5:42"),
    (268, ""),
    (269, "error E201: no reading at 7:1"),
    (274, ""),
    (276, "error E301: no top module: chip"),
    (281, "error E201: no reading at 8:1"),
    (444, ""),
    (445, "error E201: no reading at 11:23"),
    (488, ""),
    (489, "error E201: no reading at 12:27"),
    (498, ""),
    (499, "error E201: no reading at 12:37"),
    (527, ""),
    (528, "error E201: no reading at 13:20"),
    (539, ""),
    (540, "error E201: no reading at 13:32"),
    (591, ""),
    (592, "error E201: no reading at 14:28"),
    (673, ""),
    (677, "error E101: no token begins here at 16:9"),
    (700, ""),
    (701, "error E201: no reading at 17:1"),
    (706, ""),
];

/// The line of a text without a reading at its end.
fn unread_at_end(alloc: Global, text: &[u8]) -> Result<String, Fail> {
    let mut line: u32 = 1;
    let mut column: u32 = 1;
    for byte in text {
        if *byte == b'\n' {
            line = line.saturating_add(1);
            column = 1;
        } else {
            column = column.saturating_add(1);
        }
    }
    Ok(format!(in alloc; "error E201: no reading at {line}:{column}\n3")?)
}

fn audit_cuts(
    rt: &impl Abort,
    alloc: Global,
    from: usize,
    span: &(usize, &str),
) -> Result<(), Fail> {
    let (last, line) = span;
    for cut in from..=*last {
        let text = CHIP.as_bytes().get(..cut).unwrap_or(&[]);
        let answer = audited(alloc, text, CHIP_CONSTRAINTS)?;
        let wanted = if line.is_empty() {
            unread_at_end(alloc, text)?
        } else {
            format!(in alloc; "{line}\n3")?
        };
        assert_eq!(rt; answer.as_str(), wanted.as_str(), "cut at {cut}");
    }
    Ok(())
}

#[test]
fn a_design_cut_at_each_byte(rt: HostRuntime) -> Result<(), Fail> {
    let mut from = 0;
    for span in SPANS.as_slice() {
        audit_cuts(&rt, rt.alloc(), from, span)?;
        from = span.0.saturating_add(1);
    }
    assert_eq!(&rt; from, CHIP.len().saturating_sub(1));
    Ok(())
}
