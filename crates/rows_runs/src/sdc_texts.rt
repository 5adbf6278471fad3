//! Constraints in SDC, as whole texts.
use crate::runs::{audited, audited_under};
use row_designs::{CHIP, CHIP_CONSTRAINTS, TWO_FLOPS};
use std::alloc::Global;
use std::process::Abort;
use std::test::Fail;

/// The constraints of two flops, and two of its commands.
const SDC: &str = "current_design m
create_clock -name A -period 10 [get_ports ca]
create_clock -name B -period 7.5 [get_ports cb]
set_clock_groups -asynchronous -group {A} -group {B}
set_input_delay -clock A 2 [get_ports d]
";

const GROUPS: &str = "set_clock_groups -asynchronous -group {A} -group {B}\n";

const DELAY: &str = "set_input_delay -clock A 2 [get_ports d]\n";

const CLEAN: &str = "cover a -> s1 two-flop 2\nclean crossings=1\n0";

/// A part of the constraints, what stands in its place, and the answer.
type Row<'a> = (&'a str, &'a str, &'a str);

fn audit_all(rt: &impl Abort, alloc: Global, rows: &[Row]) -> Result<(), Fail> {
    for (part, by, wanted) in rows {
        let con = SDC.replacen(alloc, *part, *by, 1)?;
        let answer = audited_under(alloc, TWO_FLOPS.as_bytes(), "con.sdc", con.as_str())?;
        assert_eq!(rt; answer.as_str(), *wanted, "{con}");
    }
    Ok(())
}

#[test]
fn sdc_texts_are_read(rt: HostRuntime) -> Result<(), Fail> {
    audit_all(
        &rt,
        rt.alloc(),
        &[
            ("", "", CLEAN),
            ("current_design m\n", "", CLEAN),
            (
                "current_design m",
                "current_design {m}; # set_x ; set_y",
                CLEAN,
            ),
            (GROUPS, "", "clean crossings=0\n0"),
            (
                "-asynchronous -group {A} -group {B}",
                "-name g\\\n-group B -asynchronous -group\\\r\n[get_clocks { A }]",
                CLEAN,
            ),
            (
                DELAY,
                "set_false_path {unread [\"\nset_load 1 \\\n set_x\nset_input_delay -clock A 2 [get_ports d]\n",
                CLEAN,
            ),
            (
                "[get_ports d]",
                "{[get_ports {{d}}] d} -max\nset_input_delay -min -add_delay -clock [get_clocks A] .5 d",
                CLEAN,
            ),
            (
                " -name A -period 10 [get_ports ca]",
                " [get_ports ca] -waveform {0 5} -period 10. -name {A}",
                CLEAN,
            ),
            ("[get_ports d]", "[get_ports d]\nset_load 1\u{b}", CLEAN),
            (DELAY, "set_case_analysis 1 {d}\n", CLEAN),
        ],
    )
}

#[test]
fn sdc_texts_are_refused(rt: HostRuntime) -> Result<(), Fail> {
    audit_all(
        &rt,
        rt.alloc(),
        &[
            (
                "-name A -period 10 [get_ports ca]",
                "-period 10 ca",
                "error E413: SDC words not read: set_clock_groups\n4",
            ),
            (
                "[get_ports d]",
                "[get_ports d]\ncreate_generated_clock -name g -source [get_ports ca] [get_ports cb]",
                "error E412: SDC command left out: create_generated_clock\n4",
            ),
            (
                "create_clock",
                "set_x\ncreate_clock -edge",
                "error E412: SDC command left out: set_x\n4",
            ),
            (
                "create_clock",
                "create_clock -edge\nset_x\ncreate_clock",
                "error E413: SDC words not read: create_clock\n4",
            ),
            (
                "create_clock",
                "create_clock{x}",
                "error E412: SDC command left out: create_clock{x}\n4",
            ),
            (
                "-name A",
                "-name A # clock",
                "error E413: SDC words not read: create_clock\n4",
            ),
            (
                "-name A",
                "-name A -name A",
                "error E413: SDC words not read: create_clock\n4",
            ),
            (
                "-name A",
                "-name {A B}",
                "error E413: SDC words not read: create_clock\n4",
            ),
            (
                "-period 10",
                "-period 1e3",
                "error E413: SDC words not read: create_clock\n4",
            ),
            (
                "-period 10 ",
                "",
                "error E413: SDC words not read: create_clock\n4",
            ),
            (
                "[get_ports ca]",
                "[get_clocks ca]",
                "error E413: SDC words not read: create_clock\n4",
            ),
            (
                "[get_ports ca]",
                "[get_ports {ca cb}]",
                "error E413: SDC words not read: create_clock\n4",
            ),
            (
                "[get_ports d]",
                "[all_inputs]",
                "error E413: SDC words not read: set_input_delay\n4",
            ),
            (
                "[get_ports d]",
                "[get_ports {d[0]}]",
                "error E413: SDC words not read: set_input_delay\n4",
            ),
            (
                "[get_ports d]",
                "[get_ports d",
                "error E413: SDC words not read: set_input_delay\n4",
            ),
            (
                "[get_ports d]",
                "{a;b}",
                "error E413: SDC words not read: set_input_delay\n4",
            ),
            (
                "A 2",
                "A -2",
                "error E413: SDC words not read: set_input_delay\n4",
            ),
            (
                "current_design m",
                "current_design m\ncurrent_design m",
                "error E413: SDC words not read: current_design\n4",
            ),
            (
                GROUPS,
                "set_clock_groups -asynchronous -group {A} -group {B}\nset_clock_groups -asynchronous -group {A} -group {B}\n",
                "error E413: SDC words not read: set_clock_groups\n4",
            ),
            (
                "-asynchronous ",
                "",
                "error E413: SDC words not read: set_clock_groups\n4",
            ),
            (
                " -group {B}",
                "",
                "error E413: SDC words not read: set_clock_groups\n4",
            ),
            (
                "{B}",
                "{A}",
                "error E413: SDC words not read: set_clock_groups\n4",
            ),
            (
                "{B}",
                "{B C}",
                "error E413: SDC words not read: set_clock_groups\n4",
            ),
            (
                "[get_ports d]",
                "[get_ports d]\nset_load\u{b} 1",
                "error E413: SDC words not read\n4",
            ),
            (
                "[get_ports d]",
                "[get_ports d]\nset_x 1\u{b}",
                "error E413: SDC words not read\n4",
            ),
            (
                "-clock A 2",
                "-clock C 2",
                "error E409: no such clock: C\n4",
            ),
            (
                "-clock A 2",
                "-clock ca 2",
                "error E409: no such clock: ca\n4",
            ),
            (
                "-name B -period 7.5 [get_ports cb]\nset_clock_groups -asynchronous -group {A} -group {B}\n",
                "-name A -period 7.5 [get_ports cb]\n",
                "error E404: name declared twice: A\n4",
            ),
            (
                "-name B -period 7.5 [get_ports cb]\nset_clock_groups -asynchronous -group {A} -group {B}\n",
                "-name B -period 7.5 [get_ports ca]\n",
                "error E404: name declared twice: ca\n4",
            ),
            (
                "[get_ports d]",
                "[get_ports d]\nset_case_analysis 0 d",
                "error E404: name declared twice: d\n4",
            ),
            (
                "[get_ports d]",
                "d\nset_input_delay -clock B 2 d",
                "error E404: name declared twice: d\n4",
            ),
            (DELAY, "", "error E405: input not declared: d\n4"),
            (
                "current_design m",
                "current_design n",
                "error E301: no top module: n\n3",
            ),
        ],
    )
}

/// The form goes by the end of the word, and the netlist's text is refused first.
#[test]
fn words_tell_the_form(rt: HostRuntime) -> Result<(), Fail> {
    let alloc = rt.alloc();
    let unnamed = SDC.replacen(alloc, "current_design m\n", "", 1)?;
    for (net, word, con, wanted) in [
        (TWO_FLOPS, "con.toml", SDC, "error E401: not TOML\n4"),
        (TWO_FLOPS, "con.SDC", SDC, "error E401: not TOML\n4"),
        (
            TWO_FLOPS,
            "con.sdc",
            "top = \"m\"\n",
            "error E412: SDC command left out: top\n4",
        ),
        (
            "module",
            "con.sdc",
            "set_x",
            "error E201: no reading at 1:7\n3",
        ),
        (
            "module m; wire w; endmodule module n(input ca, cb, d); endmodule",
            "con.sdc",
            unnamed.as_str(),
            "clean crossings=0\n0",
        ),
        (
            "",
            "con.sdc",
            unnamed.as_str(),
            "error E301: no top module\n3",
        ),
        (
            "",
            "con.sdc",
            "set_x",
            "error E412: SDC command left out: set_x\n4",
        ),
        (
            "module m; n u(); endmodule",
            "con.sdc",
            "set_x",
            "error E412: SDC command left out: set_x\n4",
        ),
    ] {
        let answer = audited_under(alloc, net.as_bytes(), word, con)?;
        assert_eq!(&rt; answer.as_str(), wanted, "{word} {con}");
    }
    Ok(())
}

/// A design with a reset has the same answer under either form.
#[test]
fn either_form_has_one_answer(rt: HostRuntime) -> Result<(), Fail> {
    let alloc = rt.alloc();
    let con = "create_clock -name A -period 10 ca
create_clock -name B -period 7.5 cb
set_clock_groups -asynchronous -group A -group B
set_input_delay -clock A 2 inc
set_case_analysis 1 rst_n
";
    let in_sdc = audited_under(alloc, CHIP.as_bytes(), "con.sdc", con)?;
    let in_toml = audited(alloc, CHIP.as_bytes(), CHIP_CONSTRAINTS)?;
    assert_eq!(&rt; in_sdc.as_str(), in_toml.as_str());
    assert!(&rt; in_sdc.ends_with("clean crossings=5\n0"));
    Ok(())
}
