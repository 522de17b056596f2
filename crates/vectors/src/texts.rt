// Settle's texts with their printed texts: document 01's examples 1 to 7, the book of its costly mistakes, prices with hundredths, and the edges of the
// limits.
use definitions::Limits;
use listing::Listing;
use settlement::settle_text;
use std::io;

// Prints the name of each text, then what settle prints for it.
fn show(rt: &impl Print, texts: &[(&str, &str)]) -> io::Result<()> {
    for (name, text) in texts {
        let mut sheet = [0u32; Limits::CELLS];
        // There is no heap: room for the longest listing.
        let mut out = [0u8; Listing::ROOM];
        let size = settle_text(text.as_bytes(), &mut sheet, &mut out);
        rt.println(*name)?;
        rt.write_all(&out[..size])?;
    }
    Ok(())
}

pub fn show_all(rt: &impl Print) -> io::Result<()> {
    show(
        rt,
        &[
            // Document 01's examples 1 to 7, and the book of its costly mistakes.
            ("example 1:", "2 1 1 20 -10 0 1 30 6 0 0"),
            ("example 2:", "2 2 1 20 -10 0 2 30 6 0 0 3 0 0"),
            ("example 3:", "2 1 1 25 -5 0 1 25 5 0 0"),
            ("example 4:", "3 1 1 10 -5 0 1 30 4 0 1 30 4 0 0"),
            ("example 5:", "2 1 1 -10 -4 0 1 -20 4 0 0"),
            (
                "example 6:",
                "3 3 1 10 -9 0 2 15 4 0 3 40 6 0 0 5 0 0 0 2 0 0 0",
            ),
            ("example 7:", "0 2 0 7 7 0"),
            (
                "rerouting:",
                "3 4 1 10 -4 0 2 20 -4 0 4 30 8 0 0 4 4 0 0 0 0 4 0 0 0 4 0 0 0 0",
            ),
            // The edges of the limits.
            ("negative prices:", "2 1 1 -20 -4 0 1 -10 4 0 0"),
            (
                "greatest and least:",
                "2 1 1 -30000 -65535 0 1 30000 65535 0 0",
            ),
            ("dear sale alone:", "1 1 1 30000 -65535 0 0"),
            ("cheap sale alone:", "1 1 1 -30000 -65535 0 0"),
            ("sale at 0 alone:", "1 1 1 0 -1 0 0"),
            // Prices with hundredths.
            ("two offers at 25:", "3 1 1 25 -5 40 1 25 -5 10 1 30 6 0 0"),
            ("a hundredth too little:", "2 1 1 25 -5 10 1 25 5 9 0"),
            ("hundredths below 0:", "3 1 1 -3 -4 25 1 -3 -4 0 1 -2 5 0 0"),
            (
                "beside 0, and no price:",
                "2 3 1 -1 -2 50 2 0 -2 75 0 0 0 0 0 0 0 0 0",
            ),
            (
                "next to both ends:",
                "2 2 1 -30000 -1 99 2 29999 -1 99 0 0 0 0",
            ),
            // What is refused, and by which number.
            ("price too high:", "1 1 1 30001 5 0 0"),
            ("hundredths below:", "1 1 1 20 5 -1 0"),
            ("hundredths above:", "1 1 1 20 5 100 0"),
            ("above 30,000.00:", "1 1 1 30000 5 1 0"),
            ("hundredths before a quantity:", "1 1 1 20 65536 100 0"),
            ("a pool before hundredths:", "1 1 0 20 5 100 0"),
            ("quantity too low:", "1 1 1 30000 -65536 0 0"),
            ("pool not there:", "2 1 1 5 5 0 2 5 5 0 0"),
            ("capacity too high:", "0 2 0 1000001 -1 0"),
            ("diagonal:", "0 2 0 1000000 0 1"),
            ("65 bids:", "65 1"),
            ("5 pools:", "0 5"),
            // Where the text, and not the book, decides.
            ("refused before the rest:", "999 1 x"),
            ("no second count:", "999 1x"),
            ("one number too many:", "0 1 0 5"),
            ("no number:", "0 1 5 x"),
            ("three numbers a bid:", "1 1 1 20 -10 0"),
            ("nothing:", ""),
            ("blanks:", "\n 0  1\n\n-0 \n"),
            // As many bids as there may be.
            (
                "64 bids:",
                "64 1 1 100 -10 0 1 101 -11 0 1 102 -12 0 1 103 -13 0 1 104 -14 0 1 105 -15 0 1 106 -16 0 1 107 -17 0 1 108 -18 0 1 109 -19 0 1 110 -20 0 1 111 -21 0 1 112 -22 0 1 113 -23 0 1 114 -24 0 1 115 -25 0 1 116 -26 0 1 117 -27 0 1 118 -28 0 1 119 -29 0 1 120 -30 0 1 121 -31 0 1 122 -32 0 1 123 -33 0 1 124 -34 0 1 125 -35 0 1 126 -36 0 1 127 -37 0 1 128 -38 0 1 129 -39 0 1 130 -40 0 1 131 -41 0 1 150 7 0 1 149 9 0 1 148 11 0 1 147 13 0 1 146 15 0 1 145 17 0 1 144 19 0 1 143 21 0 1 142 23 0 1 141 25 0 1 140 27 0 1 139 29 0 1 138 31 0 1 137 33 0 1 136 35 0 1 135 37 0 1 134 39 0 1 133 41 0 1 132 43 0 1 131 45 0 1 130 47 0 1 129 49 0 1 128 51 0 1 127 53 0 1 126 55 0 1 125 57 0 1 124 59 0 1 123 61 0 1 122 63 0 1 121 65 0 1 120 67 0 1 119 69 0 0",
            ),
        ],
    )
}
