// A row: a set and the calls on it.
use std::alloc::{AllocError, Global};
use symbol_sets::{SymbolSet, VecSet};

// The numbers in any set, in order.
fn append_ones<S: SymbolSet>(set: &S, printed: &mut String) -> Result<(), AllocError> {
    printed.push_str(" {")?;
    for n in set.ones() {
        write!(printed, " {n}")?;
    }
    printed.push_str(" }")
}

fn append_truth(truth: bool, printed: &mut String) -> Result<(), AllocError> {
    printed.push_str(if truth { " yes" } else { " no" })
}

// A call that is a word alone.
fn append_plain<S: SymbolSet>(
    set: &mut S,
    call: &str,
    printed: &mut String,
) -> Result<(), AllocError> {
    match call {
        "clear" => {
            set.clear();
            Ok(())
        }
        "empty" => append_truth(set.is_empty(), printed),
        "capacity" => {
            let capacity = set.capacity();
            write!(printed, " {capacity}")
        }
        "ones" => append_ones(set, printed),
        _ => printed.push_str(" not a call"),
    }
}

// A call on a number.
fn append_at<S: SymbolSet>(
    set: &mut S,
    sign: char,
    n: u32,
    printed: &mut String,
) -> Result<(), AllocError> {
    match sign {
        '+' => {
            set.set_bit(n);
            Ok(())
        }
        '-' => {
            set.unset_bit(n);
            Ok(())
        }
        _ => append_truth(set.contains(n), printed),
    }
}

// The number behind a sign.
fn number_behind(call: &str, sign: char) -> Option<u32> {
    call.strip_prefix(sign)?.parse::<u32>().ok()
}

fn append_call<S: SymbolSet>(
    set: &mut S,
    call: &str,
    printed: &mut String,
) -> Result<(), AllocError> {
    for sign in ['+', '-', '?'] {
        if let Some(n) = number_behind(call, sign) {
            return append_at(set, sign, n, printed);
        }
    }
    append_plain(set, call, printed)
}

fn append_calls<S: SymbolSet>(
    set: &mut S,
    calls: &str,
    printed: &mut String,
) -> Result<(), AllocError> {
    for call in calls.split(' ') {
        append_call(set, call, printed)?;
    }
    Ok(())
}

/// A row, with the answers to its calls behind it.
pub(crate) fn append_answers(
    alloc: Global,
    row: &str,
    printed: &mut String,
) -> Result<(), AllocError> {
    write!(printed, "{row}:")?;
    let Some((capacity, calls)) = row.split_once(' ') else {
        return printed.push_str(" no row");
    };
    let Ok(capacity) = capacity.parse::<u32>() else {
        return printed.push_str(" no capacity");
    };
    let mut set = VecSet::new(alloc, capacity)?;
    append_calls(&mut set, calls, printed)
}
