//! How an expression stands where a sign or a size matters.
ghost use Rattle.std.specs.Prelude.{◌≡◌, ◌&&◌};
ghost use Rattle.flat_unfolding.specs.Signs.{is_order as is_order_of};
ghost use Rattle.flat_names.specs.Signs.{no_signs, number_signs, based_signs, unary_signs, binary_signs, choice_signs, orders_signed as orders_signed_of};

use verilog_ast::{BinaryOp, UnaryOp};

/// Whether IEEE 1364-2005 takes an expression as signed (5.5), whether its value leans on the size at which it is
/// evaluated (5.4), and whether it is a number without a size, or counts as one.
#[derive(Clone, Copy, PartialEq, Eq, Debug, Drop)]
pub struct Signs {
    pub is_signed: bool,
    pub leans: bool,
    pub is_unsized: bool,
}

impl Signs {
    /// Unsigned, with a size and a value of its own.
    pub fn none() -> Signs
        ensures { result ≡ no_signs }
    {
        Signs {
            is_signed: false,
            leans: false,
            is_unsized: false,
        }
    }

    /// A plain number, or what counts as one.
    pub fn of_number() -> Signs
        ensures { result ≡ number_signs }
    {
        Signs {
            is_signed: true,
            leans: false,
            is_unsized: true,
        }
    }

    /// A number of a base without a size.
    pub fn based() -> Signs
        ensures { result ≡ based_signs }
    {
        Signs {
            is_signed: false,
            leans: false,
            is_unsized: true,
        }
    }

    /// A unary operator that doesn't count as a number.
    pub fn of_unary(op: UnaryOp, a: Signs) -> Signs
        ensures { result ≡ unary_signs op a }
    {
        if !matches!(op, UnaryOp::Not | UnaryOp::Minus) {
            return Signs::none();
        }
        Signs {
            is_signed: a.is_signed,
            leans: true,
            is_unsized: false,
        }
    }

    /// A binary operator that doesn't count as a number.
    pub fn of_binary(op: BinaryOp, a: Signs, b: Signs) -> Signs
        ensures { result ≡ binary_signs op a b }
    {
        let (is_signed, leans) = match op {
            BinaryOp::Add | BinaryOp::Sub | BinaryOp::Xnor => (a.is_signed && b.is_signed, true),
            BinaryOp::And | BinaryOp::Or | BinaryOp::Xor => {
                (a.is_signed && b.is_signed, a.leans || b.leans)
            }
            BinaryOp::Shl => (a.is_signed, true),
            BinaryOp::Shr => (a.is_signed, a.leans),
            _ => (false, false),
        };
        Signs {
            is_signed,
            leans,
            is_unsized: false,
        }
    }

    /// A choice that doesn't count as a number.
    pub fn of_choice(yes: Signs, other: Signs) -> Signs
        ensures { result ≡ choice_signs yes other }
    {
        Signs {
            is_signed: yes.is_signed && other.is_signed,
            leans: yes.leans || other.leans,
            is_unsized: false,
        }
    }
}

/// Whether the operator compares two signed operands by their order.
pub fn orders_signed(op: BinaryOp, a: Signs, b: Signs) -> bool
    ensures { result ≡ orders_signed_of op a b }
{
    is_order(op) && a.is_signed && b.is_signed
}

fn is_order(op: BinaryOp) -> bool
    ensures { result ≡ is_order_of op }
{
    matches!(
        op,
        BinaryOp::Lt | BinaryOp::Le | BinaryOp::Gt | BinaryOp::Ge
    )
}
