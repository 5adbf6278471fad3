//! What the readers of lists of tokens promise. They have a number of levels that are left below the first.
ghost use Rattle.verilog_reading.specs.Laws.{SaysAtEachDepth, LocalAtEachDepth, CompleteAtEachDepth, DeeperByOne, DeeperByThree, AtMostOneReading};
ghost use Rattle.verilog_reading.specs.StmtTree.{stmt_height};
ghost use Rattle.verilog_reading.specs.Depths.{ExprDepth, TargetDepth, StmtDepth, SourceDepth};
ghost use Rattle.verilog_reading.specs.ItemReader.{read_source};
ghost use Rattle.verilog_reading.specs.ItemReading.{IsSource};
ghost use Rattle.verilog_reading.specs.Reader.{read_expr};
ghost use Rattle.verilog_reading.specs.Reading.{IsExpr, IsTarget};
ghost use Rattle.verilog_reading.specs.Refusals.{ReaderIsExact};
ghost use Rattle.verilog_reading.specs.SourceTree.{source_height};
ghost use Rattle.verilog_reading.specs.Stands.{ExprEnds, TargetEnds, StmtEnds, SourceEnds};
ghost use Rattle.verilog_reading.specs.StmtReader.{read_stmt};
ghost use Rattle.verilog_reading.specs.StmtReading.{IsStmt};
ghost use Rattle.verilog_reading.specs.TargetReader.{read_target};
ghost use Rattle.verilog_reading.specs.ExprTree.{height, target_height};

/// Expressions: what the reader gives reads so, and what it refuses can be completed up to there; it sees no token
/// behind the first of its rest; it reads what reads within the depth; a deeper reader differs only where depth was
/// refused; and a list reads as at most one expression.
pub fn expressions_are_read()
    ensures says { SaysAtEachDepth IsExpr height read_expr }
    ensures local { LocalAtEachDepth read_expr }
    ensures complete { CompleteAtEachDepth IsExpr height ExprEnds read_expr }
    ensures deeper { DeeperByOne read_expr }
    ensures one { AtMostOneReading IsExpr }
{}

/// The same of targets.
pub fn targets_are_read()
    ensures says { SaysAtEachDepth IsTarget target_height read_target }
    ensures local { LocalAtEachDepth read_target }
    ensures complete { CompleteAtEachDepth IsTarget target_height TargetEnds read_target }
    ensures deeper { DeeperByOne read_target }
    ensures one { AtMostOneReading IsTarget }
{}

/// The same of statements, where a block's token may want three levels more: `{` in a block opens a statement and a
/// concatenation.
pub fn statements_are_read()
    ensures says { SaysAtEachDepth IsStmt stmt_height read_stmt }
    ensures local { LocalAtEachDepth read_stmt }
    ensures complete { CompleteAtEachDepth IsStmt stmt_height StmtEnds read_stmt }
    ensures deeper { DeeperByThree read_stmt }
    ensures one { AtMostOneReading IsStmt }
{}

/// The same of sources, the closing end included.
pub fn sources_are_read()
    ensures says { SaysAtEachDepth IsSource source_height read_source }
    ensures local { LocalAtEachDepth read_source }
    ensures complete { CompleteAtEachDepth IsSource source_height SourceEnds read_source }
    ensures deeper { DeeperByThree read_source }
    ensures one { AtMostOneReading IsSource }
{}

/// For tokens that end with their one end the reader gives exactly the one source that they read as within the depth,
/// or else the first token up to which, itself included, no such source begins; and it tells whether a deeper one does.
pub fn the_reader_is_exact()
    ensures { ReaderIsExact }
{}

/// The levels of a tree are those of the source that it stands for.
pub fn depths_are_kept()
    ensures expressions { ExprDepth }
    ensures targets { TargetDepth }
    ensures statements { StmtDepth }
    ensures sources { SourceDepth }
{}
