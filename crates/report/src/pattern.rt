//! Patterns of waivers.
ghost use Rattle.std.specs.Prelude.{◌≡◌, ◌∷◌, ◌++◌, ◌==◌, false, option_map, MatchOption};
ghost use Rattle.std.specs.Str.{bytes_eq};
ghost use Rattle.report.specs.Greedy.{behind, first_behind, has_star};
ghost use Rattle.report.specs.Waived.{after_run, matches};

/// What stands before the first star and what stands behind it; None where there is none.
fn split_star(pattern: &[u8]) -> Option<(&[u8], &[u8])>
    ensures { MatchOption result (has_star pattern.now ≡ false)
        (λ p. (pattern.now ≡ p.0.now ++ 42 ∷ p.1.now) × (has_star p.0.now ≡ false)) }
{
    for (place, byte) in pattern.iter().enumerate() {
        if *byte == b'*' {
            return Some((&pattern[..place], &pattern[place + 1..]));
        }
    }
    None
}

fn is_space(byte: u8) -> bool
    ensures { result ≡ (byte == 32) }
{
    byte == b' '
}

/// What stands behind the front in the line.
fn behind<'a>(front: &[u8], line: &'a [u8]) -> Option<&'a [u8]>
    ensures { option_map (λ r. r.now) result ≡ behind front.now line.now }
{
    line.strip_prefix(front)
}

/// What stands behind the piece where it first begins, with no space before it.
fn first_behind<'a>(piece: &[u8], line: &'a [u8]) -> Option<&'a [u8]>
    ensures { option_map (λ r. r.now) result ≡ first_behind piece.now line.now }
{
    for (place, byte) in line.iter().enumerate() {
        if let Some(rest) = behind(piece, &line[place..]) {
            return Some(rest);
        }
        if is_space(*byte) {
            return None;
        }
    }
    behind(piece, &line[line.len()..])
}

/// Whether the line is some run without a space and the tail.
fn ends_with(tail: &[u8], line: &[u8]) -> bool
    ensures { result ≡ after_run (bytes_eq tail.now) line.now }
{
    for (place, byte) in line.iter().enumerate() {
        if tail == &line[place..] {
            return true;
        }
        if is_space(*byte) {
            return false;
        }
    }
    tail.is_empty()
}

/// Whether the line matches, behind some run without a space. Each piece of the pattern is looked for from the left: a
/// match with a piece further to the right leaves less of the line, and no other spaces, to the pieces behind it.
fn matches_after_run(pattern: &[u8], line: &[u8]) -> bool
    ensures { result ≡ after_run (matches pattern.now) line.now }
{
    let mut pattern = pattern;
    let mut line = line;
    while let Some((piece, others)) = split_star(pattern) {
        let Some(rest) = first_behind(piece, line) else {
            return false;
        };
        pattern = others;
        line = rest;
    }
    ends_with(pattern, line)
}

/// Whether the line is, as a whole, the pattern with some run of bytes without a space in place of each `*`.
pub fn matches(pattern: &[u8], line: &[u8]) -> bool
    ensures { result ≡ matches pattern.now line.now }
{
    let Some((front, others)) = split_star(pattern) else {
        return pattern == line;
    };
    match behind(front, line) {
        Some(rest) => matches_after_run(others, rest),
        None => false,
    }
}
