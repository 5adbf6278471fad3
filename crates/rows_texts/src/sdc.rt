//! Texts, and their constraints or refusals.
use cdc_base::{Name, Stop};
use clock_constraints::Constraints;
use sdc_subset::read;
use std::alloc::{AllocError, Global};
use std::rt::HostRuntime;

fn constraints(alloc: Global, made: &Constraints) -> Result<String, AllocError> {
    let mut shown = format!(in alloc; "{}:", made.top.as_str())?;
    for clock in made.clocks.as_slice() {
        let line = format!(in alloc;
            " {}/{}/{}",
            clock.name.as_str(),
            clock.group.as_str(),
            clock.settle
        )?;
        shown.push_str(&line)?;
    }
    for input in made.inputs.as_slice() {
        let line = format!(in alloc; " {}@{}", input.name.as_str(), input.clock)?;
        shown.push_str(&line)?;
    }
    for reset in made.resets.as_slice() {
        let line = format!(in alloc; " {}={}", reset.name.as_str(), reset.high)?;
        shown.push_str(&line)?;
    }
    Ok(shown)
}

fn show(alloc: Global, text: &str) -> Result<String, AllocError> {
    let Ok(last) = Name::from_text(alloc, "last") else {
        return Ok(String::new(alloc));
    };
    match read(alloc, text.as_bytes(), &last) {
        Ok(made) => constraints(alloc, &made),
        Err(Stop::Refused(fault)) => {
            format!(in alloc; "E{} {}", fault.number, fault.name.as_str())
        }
        Err(Stop::Memory) => format!(in alloc; "memory"),
    }
}

const READ: [(&str, &str); 14] = [
    ("", "last:"),
    (
        "# create_clock\ncurrent_design {m}; # set_x ; set_y\n",
        "m:",
    ),
    (
        "current_design m\ncreate_clock -name A -period 10 [get_ports ca]\ncreate_clock -name B -period 7.5 [get_ports cb]\nset_clock_groups -asynchronous -group {A} -group {B}\nset_input_delay -clock A 2 [get_ports d]\n",
        "m: ca/A/1 cb/B/1 d@0",
    ),
    (
        "create_clock [get_ports ca] -name A -period\\\n10",
        "last: ca/A/1",
    ),
    (
        "create_clock -period .5 ca;create_clock -period 2. cb",
        "last: ca/ca/1 cb/ca/1",
    ),
    (
        "create_clock -period 2 -waveform {0 {[get_ports x]}} ca\nset_input_delay -clock [get_clocks ca] 2 {[get_ports {{d}}] d e} -max",
        "last: ca/ca/1 d@0 e@0",
    ),
    (
        "set_case_analysis 0 {r s}\nset_case_analysis 1 [get_ports t]\nset_case_analysis 0 r",
        "last: r=true s=true t=false",
    ),
    ("set_false_path {unread [\"\nset_units -time ns", "last:"),
    (
        "create_clock -name A -period 1 a\ncreate_clock -name B -period 1 b\ncreate_clock -name C -period 1 c\nset_clock_groups -group {B A} -asynchronous -name g -group C",
        "last: a/B/1 b/B/1 c/C/1",
    ),
    (
        "create_clock -period 1 a\ncreate_clock -period 1 b\nset_input_delay -clock b 0 x",
        "last: a/a/1 b/a/1 x@1",
    ),
    ("set_load 3 \\\n set_x\n", "last:"),
    ("set_load x; set_x", "E412 set_x"),
    ("create_clock -period 1 a # b", "E413 create_clock"),
    ("\t\r\n ; ;\n", "last:"),
];

const REFUSED: [(&str, &str); 26] = [
    ("set_x\nset_case_analysis 0 r\u{b}", "E413 "),
    ("# \u{b}\nset_load \u{b}\nset_load\u{b}", "E413 "),
    (
        "create_generated_clock -name g -source [get_ports ca] [get_ports cb]",
        "E412 create_generated_clock",
    ),
    ("create_clock{x}", "E412 create_clock{x}"),
    ("[x]", "E412 [x]"),
    (
        "create_clock -name A -name B -period 1 a",
        "E413 create_clock",
    ),
    ("create_clock -name A a", "E413 create_clock"),
    ("create_clock -period 1e3 a", "E413 create_clock"),
    ("create_clock -period . a", "E413 create_clock"),
    (
        "create_clock -period 1 [get_ports {d[0]}]",
        "E413 create_clock",
    ),
    ("create_clock -period 1 {a;b}", "E413 create_clock"),
    ("create_clock -period 1 [get_clocks a]", "E413 create_clock"),
    (
        "create_clock -period 1 [get_ports [get_ports a]]",
        "E413 create_clock",
    ),
    ("create_clock -period 1 a -edge", "E413 create_clock"),
    ("set_case_analysis 0 [get_ports]", "E413 set_case_analysis"),
    ("set_case_analysis 0 {}", "E413 set_case_analysis"),
    ("set_case_analysis 0 [all_inputs]", "E413 set_case_analysis"),
    ("current_design {m n}", "E413 current_design"),
    ("current_design {{m}}", "E413 current_design"),
    ("current_design m\ncurrent_design m", "E413 current_design"),
    (
        "create_clock -period 1 a\nset_clock_groups -group a -group b",
        "E413 set_clock_groups",
    ),
    (
        "create_clock -period 1 a\nset_clock_groups -asynchronous -group a -group b",
        "E413 set_clock_groups",
    ),
    ("set_input_delay -clock A 2 d", "E409 A"),
    ("set_case_analysis 0 r\nset_case_analysis 1 r", "E404 r"),
    (
        "create_clock -name A -period 1 ca\ncreate_clock -name A -period 1 ca",
        "E404 A",
    ),
    ("create_clock -period 1 a\nset_case_analysis 0 a", "E404 a"),
];

#[test]
fn texts_are_read(rt: HostRuntime) {
    for (text, wanted) in &READ {
        match show(rt.alloc(), text) {
            Ok(found) => {
                if found.as_str() != *wanted {
                    panic!(rt; "{text}: {found} wanted {wanted}");
                }
            }
            Err(_) => panic!(rt; "memory"),
        }
    }
}

#[test]
fn texts_are_refused(rt: HostRuntime) {
    for (text, wanted) in &REFUSED {
        match show(rt.alloc(), text) {
            Ok(found) => {
                if found.as_str() != *wanted {
                    panic!(rt; "{text}: {found} wanted {wanted}");
                }
            }
            Err(_) => panic!(rt; "memory"),
        }
    }
}
