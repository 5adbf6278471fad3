//! Texts and their tokens.
use cdc_base::fault::Stop;
use cdc_base::size::NumberSize;
use std::alloc::{AllocError, Global};
use std::process::Abort;
use std::rt::HostRuntime;
use verilog_lex::lex;
use verilog_lex::token::{Token, TokenKind};

fn kind(alloc: Global, kind: &TokenKind) -> Result<String, AllocError> {
    match kind {
        TokenKind::Word(word) => format!(in alloc; "{word:?}"),
        TokenKind::Ident(name) => format!(in alloc; "{}", name.as_str()),
        TokenKind::Number { value, width, size } => match size {
            NumberSize::Plain => format!(in alloc; "{value}"),
            NumberSize::Unsized => format!(in alloc; "'{value}"),
            NumberSize::Sized => format!(in alloc; "{width}'{value}"),
        },
        TokenKind::Mask { value, open, width } => format!(in alloc; "{width}'{value}?{open}"),
        TokenKind::Mark(mark) => format!(in alloc; "{mark:?}"),
        TokenKind::End => format!(in alloc; "End"),
    }
}

fn show(alloc: Global, text: &[u8]) -> Result<String, AllocError> {
    let mut shown = String::new(alloc);
    if text.len() > 1000 {
        shown.push_str("long")?;
        return Ok(shown);
    }
    match lex(alloc, text) {
        Ok(tokens) => {
            for token in tokens.as_slice() {
                let name = kind(alloc, &token.kind)?;
                let line = format!(in alloc;
                    "{} {}:{} {}-{};",
                    name, token.place.line, token.place.column, token.start, token.end
                )?;
                shown.push_str(&line)?;
            }
        }
        Err(Stop::Refused(fault)) => {
            let line = format!(in alloc; "E{} {}", fault.number, fault.name.as_str())?;
            shown.push_str(&line)?;
            if let Some(place) = fault.place {
                let line = format!(in alloc; " {}:{}", place.line, place.column)?;
                shown.push_str(&line)?;
            }
        }
        Err(Stop::Memory) => {
            shown.push_str("memory")?;
        }
    }
    Ok(shown)
}

fn compare(rt: &impl Abort, alloc: Global, table: &[(&[u8], &str)]) {
    for (text, wanted) in table {
        let found = show(alloc, text);
        match found {
            Ok(found) => {
                if found.as_str() != *wanted {
                    panic!(rt; "{found} wanted {wanted}");
                }
            }
            Err(_) => panic!(rt; "memory"),
        }
    }
}

#[test]
fn tokens_of_short_texts(rt: HostRuntime) {
    let table: [(&[u8], &str); 39] = [
        (b"", "End 1:1 0-0;"),
        (b" \t\r\n\x0c", "End 2:2 5-5;"),
        (
            b"module m;\n  endmodule",
            "Module 1:1 0-6;m 1:8 7-8;Semicolon 1:9 8-9;EndModule 2:3 12-21;End 2:12 21-21;",
        ),
        (b"a // b\nc", "a 1:1 0-1;c 2:1 7-8;End 2:2 8-8;"),
        (b"a /* b \n */c", "a 1:1 0-1;c 2:4 11-12;End 2:5 12-12;"),
        (b"a /*/ b", "E102  1:3"),
        (b"/*/*/x", "x 1:6 5-6;End 1:7 6-6;"),
        (b"//", "End 1:3 2-2;"),
        (b"(* a = \"*)\" *)b", "b 1:15 14-15;End 1:16 15-15;"),
        (b"(* \\\"*)", "E102  1:1"),
        (b"(* \"a\\\"*)\" *)b", "b 1:14 13-14;End 1:15 14-14;"),
        (b"(**)b", "b 1:5 4-5;End 1:6 5-5;"),
        (
            b"(*)",
            "ParenOpen 1:1 0-1;Star 1:2 1-2;ParenClose 1:3 2-3;End 1:4 3-3;",
        ),
        (
            b"( * )",
            "ParenOpen 1:1 0-1;Star 1:3 2-3;ParenClose 1:5 4-5;End 1:6 5-5;",
        ),
        (
            b"(* )",
            "ParenOpen 1:1 0-1;Star 1:2 1-2;ParenClose 1:4 3-4;End 1:5 4-4;",
        ),
        (b"(*", "E102  1:1"),
        (b"\\abc ", "abc 1:1 0-4;End 1:6 5-5;"),
        (b"\\if\n", "if 1:1 0-3;End 2:1 4-4;"),
        (b"module m; endmodule \\abc", "E101  1:21"),
        (b"module m; endmodule \\abc\x80", "E101  1:21"),
        (b"\\ a", "E101  1:1"),
        (b"12_3", "123 1:1 0-4;End 1:5 4-4;"),
        (b"2147483647", "2147483647 1:1 0-10;End 1:11 10-10;"),
        (b"2147483648", "E103  1:1"),
        (b"12a", "E103  1:1"),
        (b"8 'h fF", "8'255 1:1 0-7;End 1:8 7-7;"),
        (b"8' hff", "E103  1:1"),
        (b"8'q1", "E103  1:1"),
        (b"8 /**/ 'd1", "8 1:1 0-1;'1 1:8 7-10;End 1:11 10-10;"),
        (b"4'b1111_0101", "4'5 1:1 0-12;End 1:13 12-12;"),
        (b"'o17", "'15 1:1 0-4;End 1:5 4-4;"),
        (
            b"64'hffffffffffffffff",
            "64'18446744073709551615 1:1 0-20;End 1:21 20-20;",
        ),
        (b"1'h100000000000000000000000000000000", "E103  1:1"),
        (
            b"1'hffffffffffffffffffffffffffffffff",
            "1'1 1:1 0-35;End 1:36 35-35;",
        ),
        (b"65'h0", "E103  1:1"),
        (b"4'b_1", "E103  1:1"),
        (b"'", "E103  1:1"),
        (b" `define A", "E104 define 1:2"),
        (b"a\n  fork", "E105 fork 2:3"),
    ];
    compare(&rt, rt.alloc(), &table);
}

#[test]
fn numbers_and_lines(rt: HostRuntime) {
    let table: [(&[u8], &str); 46] = [
        (b"module m; wire w = 65'h0; endmodule", "E103  1:20"),
        (b"'hffffffff", "'4294967295 1:1 0-10;End 1:11 10-10;"),
        (b"'h100000000", "E103  1:1"),
        (b"4'd31", "4'15 1:1 0-5;End 1:6 5-5;"),
        (b"4'b?0101", "4'5?0 1:1 0-8;End 1:9 8-8;"),
        (b"4'b?1", "4'1?14 1:1 0-5;End 1:6 5-5;"),
        (b"4'b1?z_Z", "4'8?7 1:1 0-8;End 1:9 8-8;"),
        (b"8'h?", "8'0?255 1:1 0-4;End 1:5 4-4;"),
        (b"12 'O z7", "12'7?4088 1:1 0-8;End 1:9 8-8;"),
        (b"64'hz", "64'0?18446744073709551615 1:1 0-5;End 1:6 5-5;"),
        (b"'b?", "E103  1:1"),
        (b"8'd?", "E103  1:1"),
        (b"8'hx?", "E103  1:1"),
        (b"8'h_?", "E103  1:1"),
        (
            b"4'h1zzzzzzzzzzzzzzzzzzzzzzzzzzzzzzz",
            "4'0?15 1:1 0-35;End 1:36 35-35;",
        ),
        (b"4'hz0000000000000000000000000000000z", "E103  1:1"),
        (
            b"4'o4zzzzzzzzzzzzzzzzzzzzzzzzzzzzzzzzzzzzzzzzzz",
            "E103  1:1",
        ),
        (
            b"<<<=&&&&+:-:",
            "LessLessLess 1:1 0-3;Equals 1:4 3-4;AmpersandAmpersandAmpersand 1:5 4-7;\
             Ampersand 1:8 7-8;PlusColon 1:9 8-10;MinusColon 1:11 10-12;End 1:13 12-12;",
        ),
        (b"casex", "E105 casex 1:1"),
        (b"casez", "CaseZ 1:1 0-5;End 1:6 5-5;"),
        (b"(* \\a = 1 *)", "E102  1:1"),
        (b"(* a `b *)", "E102  1:1"),
        (b"x(* // *)", "E102  1:2"),
        (b"(* /* */ *)", "E102  1:1"),
        (b"(* \"`\\*)//\r\" *)b", "b 1:16 15-16;End 1:17 16-16;"),
        (b"(* \"a\nb\" *)", "E102  1:1"),
        (b"(* \"a\\\nb\" *)", "E102  1:1"),
        (b"(* \"a\\\\\" *)b", "b 1:12 11-12;End 1:13 12-12;"),
        (b"`timescale 1ns/1ps /* x", "E104 timescale 1:1"),
        (
            b"`timescale\t1 ns / 10ps // x\ny",
            "y 2:1 28-29;End 2:2 29-29;",
        ),
        (b"`timescale1ns/1ps", "E104 timescale1ns 1:1"),
        (b"`timescale 1ns/1ps wire", "E104 timescale 1:1"),
        (b"`timescale 1_0ns/1ps", "E104 timescale 1:1"),
        (b"`timescale 1ns/\n1ps", "E104 timescale 1:1"),
        (b"`celldefine wire w;", "E104 celldefine 1:1"),
        (
            b"`celldefine//\n`endcelldefine \r\n`resetall",
            "End 3:10 40-40;",
        ),
        (b"`resetall$", "E104 resetall 1:1"),
        (
            b"`default_nettype none\n`default_nettype\x0cwire",
            "End 2:22 43-43;",
        ),
        (b"`default_nettype wire1", "E104 default_nettype 1:1"),
        (b"`default_nettype tri", "E104 default_nettype 1:1"),
        (b"`default_nettype", "E104 default_nettype 1:1"),
        (b"`line 3 \"a\\\"b.v\" 1\nx", "x 2:1 19-20;End 2:2 20-20;"),
        (b"`line 3 \"a\\\" 1\nx", "E104 line 1:1"),
        (b"`line 3 \"a\"1", "E104 line 1:1"),
        (b"  `line 3 \"a\" ", "E104 line 1:3"),
        (b"`", "E104  1:1"),
    ];
    compare(&rt, rt.alloc(), &table);
}

#[test]
fn marks_are_longest(rt: HostRuntime) {
    let found = show(rt.alloc(), b"<<=~^~&^~&&|||>=>!=!==&&&<<<+:-:=<\"");
    match found {
        Ok(found) => assert!(rt; found.as_str() == "E101  1:35", "{found}"),
        Err(_) => panic!(rt; "memory"),
    }
}
