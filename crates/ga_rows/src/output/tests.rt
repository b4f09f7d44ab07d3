//! The text of each mode with each width.
use super::*;
use std::alloc::Global;

/// Bytes of one, two and three digits, one more than the widest row has.
const INPUT: [u8; 17] = [
    0, 9, 10, 99, 100, 255, 7, 8, 16, 32, 64, 128, 1, 2, 3, 4, 200,
];

const WIDTHS: [Width; 5] = [Width::W1, Width::W2, Width::W4, Width::W8, Width::W16];

/// The lines of that input by each width.
const LINES: &[(Mode, [&str; 5])] = &[
    (
        Mode::Dec,
        [
            "0\n9\n10\n99\n100\n255\n7\n8\n16\n32\n64\n128\n1\n2\n3\n4\n200\n",
            "0 9\n10 99\n100 255\n7 8\n16 32\n64 128\n1 2\n3 4\nrest 200\n",
            "0 9 10 99\n100 255 7 8\n16 32 64 128\n1 2 3 4\nrest 200\n",
            "0 9 10 99 100 255 7 8\n16 32 64 128 1 2 3 4\nrest 200\n",
            "0 9 10 99 100 255 7 8 16 32 64 128 1 2 3 4\nrest 200\n",
        ],
    ),
    (
        Mode::Hex,
        [
            "00\n09\n0a\n63\n64\nff\n07\n08\n10\n20\n40\n80\n01\n02\n03\n04\nc8\n",
            "0009\n0a63\n64ff\n0708\n1020\n4080\n0102\n0304\nrest 200\n",
            "00090a63\n64ff0708\n10204080\n01020304\nrest 200\n",
            "00090a6364ff0708\n1020408001020304\nrest 200\n",
            "00090a6364ff07081020408001020304\nrest 200\n",
        ],
    ),
    (
        Mode::Back,
        [
            "0\n9\n10\n99\n100\n255\n7\n8\n16\n32\n64\n128\n1\n2\n3\n4\n200\n",
            "9 0\n99 10\n255 100\n8 7\n32 16\n128 64\n2 1\n4 3\nrest 200\n",
            "99 10 9 0\n8 7 255 100\n128 64 32 16\n4 3 2 1\nrest 200\n",
            "8 7 255 100 99 10 9 0\n4 3 2 1 128 64 32 16\nrest 200\n",
            "4 3 2 1 128 64 32 16 8 7 255 100 99 10 9 0\nrest 200\n",
        ],
    ),
    (
        Mode::Sum,
        [
            "0\n9\n10\n99\n100\n255\n7\n8\n16\n32\n64\n128\n1\n2\n3\n4\n200\n",
            "9\n109\n355\n15\n48\n192\n3\n7\nrest 200\n",
            "118\n370\n240\n10\nrest 200\n",
            "488\n250\nrest 200\n",
            "738\nrest 200\n",
        ],
    ),
    (
        Mode::Last,
        [
            "200\n4\n3\n2\n1\n128\n64\n32\n16\n8\n7\n255\n100\n99\n10\n9\n0\n",
            "3 4\n1 2\n64 128\n16 32\n7 8\n100 255\n10 99\n0 9\nrest 200\n",
            "1 2 3 4\n16 32 64 128\n100 255 7 8\n0 9 10 99\nrest 200\n",
            "16 32 64 128 1 2 3 4\n0 9 10 99 100 255 7 8\nrest 200\n",
            "0 9 10 99 100 255 7 8 16 32 64 128 1 2 3 4\nrest 200\n",
        ],
    ),
];

/// Short inputs, and their lines.
const SHORT: &[(&[u8], Mode, Width, &str)] = &[
    (
        &[1, 2, 3, 4, 5, 6],
        Mode::Dec,
        Width::W4,
        "1 2 3 4\nrest 5 6\n",
    ),
    (&[], Mode::Dec, Width::W4, ""),
    (&[], Mode::Hex, Width::W16, ""),
    (&[0, 255, 10], Mode::Dec, Width::W4, "rest 0 255 10\n"),
    (
        &[1, 2, 3, 4, 255],
        Mode::Hex,
        Width::W2,
        "0102\n0304\nrest 255\n",
    ),
    (
        &[1, 2, 3, 4, 255],
        Mode::Back,
        Width::W4,
        "4 3 2 1\nrest 255\n",
    ),
    (&[1, 2, 3, 4, 255], Mode::Sum, Width::W4, "10\nrest 255\n"),
    (
        &[1, 2, 3, 4, 255],
        Mode::Dec,
        Width::W1,
        "1\n2\n3\n4\n255\n",
    ),
    (&[255; 16], Mode::Sum, Width::W16, "4080\n"),
    (
        &[255, 255, 255, 255, 1],
        Mode::Sum,
        Width::W4,
        "1020\nrest 1\n",
    ),
    (
        &[0; 16],
        Mode::Hex,
        Width::W16,
        "00000000000000000000000000000000\n",
    ),
    (
        &[1, 2, 3, 4, 255],
        Mode::Last,
        Width::W2,
        "3 4\n1 2\nrest 255\n",
    ),
    (&[1, 1, 1], Mode::Last, Width::W4, "rest 1 1 1\n"),
    (&[], Mode::Last, Width::W1, ""),
];

/// Whether these lines are written, and the result says whether a rest is among them.
fn gives(
    alloc: Global,
    input: &[u8],
    mode: Mode,
    width: Width,
    lines: &str,
) -> Result<bool, io::Error> {
    let mut text = Vec::new(alloc);
    let has_rest = rows(input, mode, width, &mut text)?;
    Ok(text.as_slice() == lines.as_bytes() && has_rest == lines.contains("rest"))
}

/// Whether each width gives its lines of that input.
fn each_width_gives(alloc: Global, mode: Mode, of_widths: [&str; 5]) -> Result<bool, io::Error> {
    for (width, lines) in WIDTHS.into_iter().zip(of_widths) {
        if !gives(alloc, &INPUT, mode, width, lines)? {
            return Ok(false);
        }
    }
    Ok(true)
}

#[test]
fn each_mode_and_width_gives_its_lines(rt: HostRuntime) -> Result<(), io::Error> {
    for (mode, of_widths) in LINES {
        assert!(rt;
            each_width_gives(rt.alloc(), *mode, *of_widths)?,
            "{mode:?}"
        );
    }
    Ok(())
}

#[test]
fn short_inputs_give_their_lines(rt: HostRuntime) -> Result<(), io::Error> {
    for (input, mode, width, lines) in SHORT {
        assert!(rt; gives(rt.alloc(), input, *mode, *width, lines)?);
    }
    Ok(())
}
