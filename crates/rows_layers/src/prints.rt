//! Texts and how `print` writes what they read as; each such text reads and prints as itself.
use cdc_base::List;
use std::alloc::Global;
use std::test::Fail;

/// A text, and its one spelling: a blank behind each token, a line for each item and statement.
const TEXTS: [(&str, &str); 16] = [
    ("", ""),
    (
        "module m; endmodule module \\a+b (); endmodule",
        "module m ( ) ; \nendmodule \nmodule \\a+b ( ) ; \nendmodule \n",
    ),
    (
        "module m #(parameter [3:0] W = 8, V = 4'd9) (a, b, \\b[0] ); parameter P = W; localparam [1:0] L = 2'b10, N = 7; endmodule",
        "module m # ( parameter [ 3 : 0 ] W = 8 , parameter [ 3 : 0 ] V = 4'h9 ) ( a , b , \\b[0] ) ; \nparameter P = W ; \nlocalparam [ 1 : 0 ] L = 2'h2 ; \nlocalparam [ 1 : 0 ] N = 7 ; \nendmodule \n",
    ),
    (
        "module m(input wire [W-1:0] a, b, input c, output [0:3] y, output reg q = 1, r, s = 0); endmodule",
        "module m ( input [ W - 1 : 0 ] a , input [ W - 1 : 0 ] b , input c , output [ 0 : 3 ] y , output reg q = 1 , output reg r , output reg s = 0 ) ; \nendmodule \n",
    ),
    (
        "module m(a, q); input [7:0] a; output reg [7:0] q; output wire z; wire w = a, v; reg [7:0] mem [0:15], n = 8'hA5; endmodule",
        "module m ( a , q ) ; \ninput [ 7 : 0 ] a ; \noutput reg [ 7 : 0 ] q ; \noutput z ; \nwire w = a ; \nwire v ; \nreg [ 7 : 0 ] mem [ 0 : 15 ] ; \nreg [ 7 : 0 ] n = 8'ha5 ; \nendmodule \n",
    ),
    (
        "module m; assign a = b, {c[1], d[3:2], {e}} = f; endmodule",
        "module m ( ) ; \nassign a = b ; \nassign { c [ 1 ] , d [ 3 : 2 ] , { e } } = f ; \nendmodule \n",
    ),
    (
        "module m; assign a = b*c/d%e+f-g<<h>>i<j<=k>l>=m==n!=o&p^q~^r|s&&t||u; endmodule",
        "module m ( ) ; \nassign a = b * c / d % e + f - g << h >> i < j <= k > l >= m == n != o & p ^ q ~^ r | s && t || u ; \nendmodule \n",
    ),
    (
        "module m; assign a = ~!&b | (^ ~&c) ^~ ~|d + ~^e; assign f = (g ? h : i) ? j : k ? {l, m[0], n[1:0]} : {2{o, 1'b1}}; endmodule",
        "module m ( ) ; \nassign a = ~ ! & b | ( ^ ~& c ) ~^ ~| d + ~^ e ; \nassign f = ( g ? h : i ) ? j : k ? { l , m [ 0 ] , n [ 1 : 0 ] } : { 2 { o , 1'h1 } } ; \nendmodule \n",
    ),
    (
        "module m; and g(y, a, b), (z, a); nand(y, a); or(y, a); nor(y, a); xor(y, a); xnor(y, a); buf(y, a); not(y, a); endmodule",
        "module m ( ) ; \nand ( y , a , b ) ; \nand ( z , a ) ; \nnand ( y , a ) ; \nor ( y , a ) ; \nnor ( y , a ) ; \nxor ( y , a ) ; \nxnor ( y , a ) ; \nbuf ( y , a ) ; \nnot ( y , a ) ; \nendmodule \n",
    ),
    (
        "module m; c #(1, , 2) u(a, , b), v(); c #(.P(3), .Q()) w(.x(a | b), .y()); c z(a); endmodule",
        "module m ( ) ; \nc # ( 1 , , 2 ) u ( a , , b ) ; \nc # ( 1 , , 2 ) v ( ) ; \nc # ( . P ( 3 ) , . Q ( ) ) w ( . x ( a | b ) , . y ( ) ) ; \nc z ( a ) ; \nendmodule \n",
    ),
    (
        "module m; always @* ; always @(*) a = b; always @(posedge c, negedge r) q <= d; always @(c or negedge r) ; initial q = 0; endmodule",
        "module m ( ) ; \nalways @ * ; \nalways @ * a = b ; \nalways @ ( posedge c or negedge r ) q <= d ; \nalways @ ( c or negedge r ) ; \ninitial q = 0 ; \nendmodule \n",
    ),
    (
        "module m; always @* if (a) if (b) x = 1; else x = 2; else begin : named x = 3; y[1:0] = 4; end endmodule",
        "module m ( ) ; \nalways @ * if ( a ) if ( b ) x = 1 ; else x = 2 ; else begin \nx = 3 ; \ny [ 1 : 0 ] = 4 ; \nend \nendmodule \n",
    ),
    (
        "module m; always @* case (s) 0, 1: x = a; default ; 2'b11: begin end endcase always @* case ({a, b}) 3: case (c) default: x = 0; endcase endcase endmodule",
        "module m ( ) ; \nalways @ * case ( s ) \n0 , 1 : x = a ; \n2'h3 : begin \nend \ndefault : ; \nendcase \nalways @ * case ( { a , b } ) \n3 : case ( c ) \ndefault : x = 0 ; \nendcase \nendcase \nendmodule \n",
    ),
    (
        "module m; assign a[7-:4] = -b[c+:2] - -d[3:2]; assign {e[0 +: 2]} = f; endmodule",
        "module m ( ) ; \nassign a [ 7 -: 4 ] = - b [ c +: 2 ] - - d [ 3 : 2 ] ; \nassign { e [ 0 +: 2 ] } = f ; \nendmodule \n",
    ),
    (
        "module m; always @* casez (s) 4'b1??0, 4'b?0101, 3: x = a; 8'h?: ; default casez (t) 'h9: ; endcase endcase endmodule",
        "module m ( ) ; \nalways @ * casez ( s ) \n4'b?1??0 , 4'b?0101 , 3 : x = a ; \n8'b????????? : ; \ndefault : casez ( t ) \n'h9 : ; \nendcase \nendcase \nendmodule \n",
    ),
    (
        "module m; always @(posedge c) begin q <= #1 d; r <= #(D) e; s = f; t <= #4'd9 g; end endmodule",
        "module m ( ) ; \nalways @ ( posedge c ) begin \nq <= # 64'h1 d ; \nr <= # D e ; \ns = f ; \nt <= # 64'h9 g ; \nend \nendmodule \n",
    ),
];

/// What the text reads as, printed.
fn printed(alloc: Global, text: &str) -> Result<List<u8>, Fail> {
    let bytes = text.as_bytes();
    let bytes = bytes.get(..bytes.len().min(268_435_456)).unwrap_or(&[]);
    let tokens = verilog_lex::lex(alloc, bytes)?;
    let source = verilog_parse::parse(alloc, tokens.as_slice())?;
    Ok(verilog_parse::print(alloc, &source)?)
}

#[test]
fn sources_print_as_they_read(rt: HostRuntime) -> Result<(), Fail> {
    for (text, spelling) in TEXTS {
        for read in [text, spelling] {
            let found = printed(rt.alloc(), read)?;
            let found = std::str::from_utf8(found.as_slice()).unwrap_or("");
            assert_eq!(&rt; found, spelling, "{read}");
        }
    }
    Ok(())
}
