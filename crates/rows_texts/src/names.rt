//! What no clause says: that calls succeed, and whether the clauses say what was meant.
use cdc_base::signal::{bit_name, parse_bit};
use cdc_base::words::is_simple;
use cdc_base::{
    Bit, FileFault, Files, List, MemFile, MemFiles, MemSink, Name, NoMemory, Place, SigKind,
    Signal, Sink, SinkFault, SureFiles, SureSink,
};
use std::alloc::Global;
use std::test::Fail;

/// A wire that is declared with a range unless both ends are 99.
fn wire(alloc: Global, name: &str, width: u8, left: u32, right: u32) -> Result<Signal, NoMemory> {
    Ok(Signal {
        name: Name::from_text(alloc, name)?,
        place: Place { line: 1, column: 1 },
        width,
        ranged: left != 99,
        left,
        right,
        kind: SigKind::Wire,
        known: 0,
        start: 0,
    })
}

#[test]
fn bits_are_named(rt: HostRuntime) -> Result<(), Fail> {
    let alloc = rt.alloc();
    let mut signals = List::new(alloc);
    signals.push(wire(alloc, "a", 1, 99, 99)?)?;
    signals.push(wire(alloc, "v", 4, 3, 0)?)?;
    signals.push(wire(alloc, "w", 4, 0, 3)?)?;
    signals.push(wire(alloc, "\\v[1] ", 1, 99, 99)?)?;
    signals.push(wire(alloc, "u.x", 8, 19, 12)?)?;
    signals.push(wire(alloc, "\\v[1] ", 1, 2, 2)?)?;
    let named: [(u32, u8, &str); 8] = [
        (0, 0, "a"),
        (1, 0, "v[0]"),
        (1, 3, "v[3]"),
        (2, 0, "w[3]"),
        (2, 3, "w[0]"),
        (3, 0, "\\v[1] "),
        (4, 7, "u.x[19]"),
        (5, 0, "\\v[1] [2]"),
    ];
    for (sig, at, text) in &named {
        let signal = signals.as_slice().get(*sig as usize).ok_or("signal")?;
        let name = bit_name(alloc, signal, *at)?;
        assert_eq!(rt; name.as_str(), *text);
        let found = parse_bit(signals.as_slice(), text.as_bytes());
        assert!(rt; found == Some(Bit { sig: *sig, at: *at }), "{text}");
    }
    let none: [&str; 9] = [
        "", "v", "v[4]", "v[01]", "v[1] ", "v[]", "a[0]", "u.x[2]", "w[+1]",
    ];
    for text in &none {
        assert!(rt;
            parse_bit(signals.as_slice(), text.as_bytes()).is_none(),
            "{text}"
        );
    }
    Ok(())
}

#[test]
fn simple_names(rt: HostRuntime) {
    let table: [(&str, bool); 12] = [
        ("a", true),
        ("_a0$", true),
        ("wires", true),
        ("Wire", true),
        ("wire", false),
        ("trireg", false),
        ("", false),
        ("0a", false),
        ("$a", false),
        ("a b", false),
        ("a[0]", false),
        ("\u{e9}", false),
    ];
    for (text, wanted) in &table {
        assert!(rt; is_simple(text.as_bytes()) == *wanted, "{text}");
    }
}

/// One file `a` of three bytes.
fn files(alloc: Global) -> Result<List<MemFile>, NoMemory> {
    let mut bytes = List::new(alloc);
    for byte in b"abc" {
        bytes.push(*byte)?;
    }
    let mut files = List::new(alloc);
    files.push(MemFile {
        name: Name::from_text(alloc, "a")?,
        bytes,
    })?;
    Ok(files)
}

#[test]
fn files_in_memory(rt: HostRuntime) -> Result<(), Fail> {
    let alloc = rt.alloc();
    let mut failing = List::new(alloc);
    failing.push(2)?;
    let mut held = MemFiles::new(alloc, files(alloc)?, failing);
    assert!(rt;
        held.read_file("a", 3)
            .is_ok_and(|bytes| bytes.as_slice() == b"abc".as_slice())
    );
    assert!(rt;
        held.read_file("a", 3)
            .is_err_and(|fault| fault == FileFault::Failed)
    );
    assert!(rt;
        held.read_file("a", 2)
            .is_err_and(|fault| fault == FileFault::TooLong)
    );
    assert!(rt;
        held.read_file("b", 3)
            .is_err_and(|fault| fault == FileFault::Failed)
    );
    assert_eq!(rt; held.asked().len(), 4);
    let mut sure = SureFiles::new(alloc, files(alloc)?);
    assert!(rt;
        sure.read_file("a", 3)
            .is_ok_and(|bytes| bytes.as_slice() == b"abc".as_slice())
    );
    assert!(rt;
        sure.read_file("b", 3)
            .is_ok_and(|bytes| bytes.as_slice().is_empty())
    );
    assert_eq!(rt; sure.asked().len(), 2);
    Ok(())
}

#[test]
fn sinks_in_memory(rt: HostRuntime) -> Result<(), Fail> {
    let alloc = rt.alloc();
    let mut failing = List::new(alloc);
    failing.push(2)?;
    let mut sink = MemSink::new(alloc, failing);
    assert!(rt; sink.put(b"a").is_ok());
    assert!(rt; sink.put(b"").is_ok());
    assert!(rt;
        sink.put(b"b")
            .is_err_and(|fault| fault == SinkFault::Failed)
    );
    assert!(rt; sink.put(b"c").is_ok());
    assert!(rt; sink.written() == b"ac".as_slice());
    let mut sure = SureSink::new(alloc);
    assert!(rt; sure.put(b"a").is_ok());
    assert!(rt; sure.written() == b"a".as_slice());
    Ok(())
}
