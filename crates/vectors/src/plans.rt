// Plans as bytes, sound and damaged: document 01's examples 8 to 10, and the edges of each refusal.
// After each name stands what the runner answers on an empty sheet, with every cell that is not 0 then: a refused plan leaves none.
use definitions::Limits;
use printing::{print_cells, print_number};
use runner::run;
use std::io;

// For each plan: runs the bytes `first` on an empty sheet, then the plan's, and prints its name and what its run answers and leaves.
fn show(rt: &impl Print, first: &[u8], plans: &[(&str, &[u8])]) -> io::Result<()> {
    for (name, bytes) in plans {
        let mut sheet = [0u32; Limits::CELLS];
        let _ = run(&mut sheet, first);
        let ran = run(&mut sheet, bytes);
        rt.println(*name)?;
        match ran {
            Ok(orders) => print_number(rt, b"orders", orders)?,
            Err(reason) => rt.println(reason)?,
        }
        print_cells(rt, &sheet)?;
    }
    Ok(())
}

pub fn show_all(rt: &impl Print) -> io::Result<()> {
    show(
        rt,
        b"",
        &[
            // Document 01's examples 8 to 10.
            ("no bytes:", b""),
            ("example 8:", b"\x00\x00\x85\xea\x02\x03\x01\x00\x00"),
            (
                "example 9:",
                b"\x00\x00\x80\x80\x80\x80\x04\x04\x02\x00\x01",
            ),
            ("example 10:", b"\x00\xac\x02\xfe\xff\xff\xff\x07"),
            // Sound plans: each kind.
            ("sum:", b"\x00\x00\x05\x00\x01\x07\x01\x02\x00\x01"),
            (
                "sum above p:",
                b"\x00\x00\xfe\xff\xff\xff\x07\x00\x01\x02\x01\x02\x00\x01",
            ),
            ("difference:", b"\x00\x00\x05\x00\x01\x07\x02\x02\x01\x00"),
            (
                "difference below 0:",
                b"\x00\x00\x05\x00\x01\x07\x02\x02\x00\x01",
            ),
            (
                "less:",
                b"\x00\x00\x05\x00\x01\x07\x04\x02\x00\x01\x04\x03\x01\x00\x04\x04\x00\x00",
            ),
            (
                "greatest number with sign:",
                b"\x00\x00\xff\xff\xff\xff\x03\x04\x02\x00\x01\x04\x03\x01\x00",
            ),
            (
                "equal:",
                b"\x00\x00\x05\x00\x01\x07\x05\x02\x00\x01\x05\x03\x01\x01",
            ),
            // Cells that coincide, and the last cell.
            (
                "one cell thrice:",
                b"\x00\x07\x09\x01\x07\x07\x07\x03\x07\x07\x07",
            ),
            (
                "target read first and second:",
                b"\x00\x00\x05\x00\x01\x07\x02\x00\x00\x01\x02\x01\x00\x01",
            ),
            (
                "last cell:",
                b"\x00\xff\x1f\x01\x01\xfe\x1f\xff\x1f\xff\x1f",
            ),
            // Bytes that end inside the second order.
            ("cut in the kind:", b"\x00\x00\x05\x80"),
            ("cut before the target:", b"\x00\x00\x05\x00"),
            ("cut in the target:", b"\x00\x00\x05\x00\xac"),
            ("cut before the constant:", b"\x00\x00\x05\x00\xac\x02"),
            (
                "cut in the constant:",
                b"\x00\x00\x05\x00\xac\x02\xfe\xff\xff\xff",
            ),
            ("cut in the first cell:", b"\x00\x00\x05\x01\x00\x80"),
            ("cut in the second cell:", b"\x00\x00\x05\x01\x00\x00\x80"),
            // A kind that is none, and numbers not in their shortest form.
            ("kind 6 alone:", b"\x06"),
            ("kind 6 in a longer form:", b"\x86\x00"),
            (
                "kind 5 in a longer form:",
                b"\x00\x00\x05\x85\x00\x00\x00\x00",
            ),
            ("greatest kind:", b"\x00\x00\x05\xff\xff\xff\xff\x0f"),
            ("target in a longer form:", b"\x00\x00\x05\x00\x80\x00\x05"),
            (
                "constant in a longer form:",
                b"\x00\x00\x05\x00\x00\x85\x80\x00",
            ),
            // Numbers too long or too great.
            (
                "four bytes without a last group:",
                b"\x00\x00\x05\x00\x00\x80\x80\x80\x80",
            ),
            (
                "five bytes without a last group:",
                b"\x00\x00\x05\x00\x00\x80\x80\x80\x80\x80",
            ),
            ("2^32:", b"\x00\x00\x05\x00\x00\x80\x80\x80\x80\x10"),
            (
                "greatest number as a cell:",
                b"\x00\x00\x05\x00\xff\xff\xff\xff\x0f\x05",
            ),
            ("cell past the last:", b"\x00\x00\x05\x00\x80\x20\x05"),
            (
                "second cell past the last:",
                b"\x00\x00\x05\x01\x00\x00\x80\x20",
            ),
            (
                "constant p:",
                b"\x00\x00\xfd\xff\xff\xff\x07\x00\x01\xff\xff\xff\xff\x07",
            ),
            // Number by number: the first bad number decides.
            ("kind 6 before a longer form:", b"\x00\x00\x05\x06\x80\x00"),
            (
                "cell past the last before a cut:",
                b"\x00\x00\x05\x00\x80\x20",
            ),
            (
                "cell past the last in a longer form:",
                b"\x00\x00\x05\x00\x80\xa0\x00\x05",
            ),
            (
                "longer form before a cell past the last:",
                b"\x00\x00\x05\x01\x00\x80\x00\x80\x20",
            ),
            ("bad order before a bad order:", b"\x06\x86\x00"),
            // All bytes are checked before the first order is run.
            (
                "fault after sound orders:",
                b"\x00\x00\x05\x00\x01\x07\x01\x02\x00\x01\x01\x00\x80\x20",
            ),
        ],
    )?;
    // A plan after a sound one: a refused plan leaves what that one has left.
    show(
        rt,
        b"\x00\x00\x05\x00\x01\x07",
        &[
            ("faulty plan after a sound one:", b"\x01\x00\x00\x01\x06"),
            ("sound plan after a sound one:", b"\x01\x00\x00\x01"),
        ],
    )
}
