//! Designs that tests take, and constraints for them.
#![tactic(auto)]

use std::alloc::Global;
use std::test::Fail;

/// Two clocks of two groups.
pub const CLOCKS: &str = "top = \"m\"
[[clock]]
name = \"ca\"
group = \"A\"
[[clock]]
name = \"cb\"
group = \"B\"
";

pub const TWO_FLOPS: &str = "module m(input ca, cb, d, output q);
reg a, s1, s2;
always @(posedge ca) a <= d;
always @(posedge cb) begin s1 <= a; s2 <= s1; end
assign q = s2;
endmodule
";

pub const GRAY_COUNTER: &str = "module m(input ca, cb, inc, output [3:0] q);
reg [3:0] b = 15, g = 8; reg [3:0] s1, s2;
wire [3:0] bn = b + inc;
always @(posedge ca) {b, g} <= {bn, (bn >> 1) ^ bn};
always @(posedge cb) {s2, s1} <= {s1, g};
assign q = s2;
endmodule
";

pub const HANDSHAKE: &str = "module m(input ca, cb, send, input [1:0] d, output [1:0] q);
reg req = 0, k1 = 0, k2 = 0; reg [1:0] data;
reg s1 = 0, s2 = 0, s3 = 0; reg [1:0] x;
always @(posedge ca) begin
  k1 <= s3; k2 <= k1;
  if (send && req == k2) begin req <= ~req; data <= d; end
end
always @(posedge cb) begin
  s1 <= req; s2 <= s1; s3 <= s2;
  if (s2 != s3) x <= data;
end
assign q = x;
endmodule
";

/// A whole design: two modules, a reset, a parameter, an attribute and an escaped name.
pub const CHIP: &str = "`timescale 1ns/1ps
module sync2 #(parameter W = 1) (input clk, input rst_n, input [W-1:0] d, output [W-1:0] q);
  (* ASYNC_REG = \"TRUE\" *) reg [W-1:0] m, s;
  always @(posedge clk or negedge rst_n)
    if (!rst_n) {s, m} <= 0; else {s, m} <= {m, d};
  assign q = s;
endmodule
module chip (ca, cb, rst_n, inc, seen);
  input ca, cb, rst_n, inc; output [3:0] seen;
  reg [3:0] bin, ptr; wire [3:0] nxt = bin + inc; reg lvl;
  always @(posedge ca or negedge rst_n)
    if (!rst_n) begin bin <= 0; ptr <= 0; end
    else begin bin <= nxt; ptr <= nxt ^ (nxt >> 1); end
  always @(posedge ca) lvl <= inc;
  sync2 #(.W(4)) u1 (.clk(cb), .rst_n(rst_n), .d(ptr), .q(seen));
  sync2 \\u.2 (cb, rst_n, lvl, );
endmodule
";

pub const CHIP_CONSTRAINTS: &str = "top = \"chip\"
[[clock]]
name = \"ca\"
group = \"A\"
[[clock]]
name = \"cb\"
group = \"B\"
[[input]]
name = \"inc\"
clock = \"ca\"
[[reset]]
name = \"rst_n\"
active = \"low\"
";

/// A FIFO of four words of two bits, with flags that are computed from its pointers.
pub const FIFO: &str = "module m(input ca, cb, push, pop, input [1:0] d, output [1:0] q);
reg [1:0] mem [0:3];
reg [2:0] wb = 0, wg = 0, r1 = 0, r2 = 0, rb = 0, rg = 0, w1 = 0, w2 = 0; reg [1:0] x;
wire full = wg == {~r2[2:1], r2[0]}, empty = rg == w2;
always @(posedge ca) begin r1 <= rg; r2 <= r1;
  if (push && !full) begin mem[wb[1:0]] <= d; wb <= wb + 3'd1;
    wg <= (wb + 3'd1) ^ ((wb + 3'd1) >> 1); end end
always @(posedge cb) begin w1 <= wg; w2 <= w1;
  if (pop && !empty) begin x <= mem[rb[1:0]]; rb <= rb + 3'd1;
    rg <= (rb + 3'd1) ^ ((rb + 3'd1) >> 1); end end
assign q = x;
endmodule
";

/// Such a FIFO in modules with resets, and with flags that are registers.
pub const FIFO_IN_MODULES: &str =
    "module sync #(parameter W = 3) (input clk, rst_n, input [W-1:0] d, output reg [W-1:0] q);
  reg [W-1:0] m;
  always @(posedge clk or negedge rst_n)
    if (!rst_n) {q, m} <= 0; else {q, m} <= {m, d};
endmodule
module rptr_empty #(parameter A = 2) (input clk, rst_n, inc, input [A:0] wptr2,
    output reg empty, output [A-1:0] addr, output reg [A:0] ptr);
  reg [A:0] bin;
  wire [A:0] binnext = bin + (inc & ~empty);
  wire [A:0] graynext = (binnext >> 1) ^ binnext;
  assign addr = bin[A-1:0];
  always @(posedge clk or negedge rst_n)
    if (!rst_n) {bin, ptr} <= 0; else {bin, ptr} <= {binnext, graynext};
  wire empty_val = graynext == wptr2;
  always @(posedge clk or negedge rst_n)
    if (!rst_n) empty <= 1'b1; else empty <= empty_val;
endmodule
module wptr_full #(parameter A = 2) (input clk, rst_n, inc, input [A:0] rptr2,
    output reg full, output [A-1:0] addr, output reg [A:0] ptr);
  reg [A:0] bin;
  wire [A:0] binnext = bin + (inc & ~full);
  wire [A:0] graynext = (binnext >> 1) ^ binnext;
  assign addr = bin[A-1:0];
  always @(posedge clk or negedge rst_n)
    if (!rst_n) {bin, ptr} <= 0; else {bin, ptr} <= {binnext, graynext};
  wire full_val = graynext == {~rptr2[A:A-1], rptr2[A-2:0]};
  always @(posedge clk or negedge rst_n)
    if (!rst_n) full <= 1'b0; else full <= full_val;
endmodule
module m(input ca, cb, rst_n, push, pop, input [1:0] d, output reg [1:0] q);
  reg [1:0] mem [0:3];
  wire full, empty;
  wire [1:0] waddr, raddr;
  wire [2:0] wptr, rptr, wptr2, rptr2;
  sync r2w (ca, rst_n, rptr, rptr2);
  sync w2r (cb, rst_n, wptr, wptr2);
  wptr_full wr (ca, rst_n, push, rptr2, full, waddr, wptr);
  rptr_empty rd (cb, rst_n, pop, wptr2, empty, raddr, rptr);
  wire [1:0] rdata = mem[raddr];
  always @(posedge ca) if (push && !full) mem[waddr] <= d;
  always @(posedge cb) if (pop && !empty) q <= rdata;
endmodule
";

/// Two clocks, and the inputs of a FIFO.
pub const FIFO_CONSTRAINTS: &str = "top = \"m\"
[[clock]]
name = \"ca\"
group = \"A\"
[[clock]]
name = \"cb\"
group = \"B\"
[[input]]
name = \"push\"
clock = \"ca\"
[[input]]
name = \"d\"
clock = \"ca\"
[[input]]
name = \"pop\"
clock = \"cb\"
";

/// The constraints of both clocks and of these inputs, separated by blanks, on `ca`.
pub fn constraints(alloc: Global, inputs: &str) -> Result<String, Fail> {
    let mut text = String::from_str(alloc, CLOCKS)?;
    for input in inputs.split(' ') {
        if !input.is_empty() {
            let entry = format!(in alloc; "[[input]]\nname = \"{input}\"\nclock = \"ca\"\n")?;
            text.push_str(entry.as_str())?;
        }
    }
    Ok(text)
}
