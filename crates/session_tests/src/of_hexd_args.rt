//! Tables of lines, with the answers that the rules of the command line give. In a line one space
//! stands between two words.

use hex_io::Word;
use hexd_args::{CommandLine, Memory, Mode, Options};
use std::alloc::{AllocError, Global};
use std::test::Fail;

// Lines that are well formed. After the bar stand the number that is no default, if there is one,
// as its place in `numbers` and its value.
static TAKEN: &str = "htp|0|11
--size 5 htp|0|5
htp --size 5|0|5
--size=5 htp|0|5
htp --size=5|0|5
--size 5 htp --seed 0|0|5
-- htp|0|11
htp --|0|11
--size=5 -- htp|0|5
htp --size=5 --|0|5
--size=1 htp|0|1
--size=11 htp|0|11
--workers=64 htp|1|64
--playouts=1000000 htp|2|1000000
--playouts=1 htp|2|1
--seed=18446744073709551615 htp|3|18446744073709551615
--seed=00000000000000000007 htp|3|7
--words=1024 htp|4|1024
--words=16777216 htp|4|16777216
--expand=1 htp|5|1
--expand=1000 htp|5|1000
--weight=0 htp|6|0
--weight=1024 htp|6|1024
--hsearch=off htp|7|0
--hsearch on htp|7|1
--solve=0 htp|8|0
--solve=10000000 htp|8|10000000
--look=0 htp|9|0
--look=1000000 htp|9|1000000
--steps=0 htp|10|0
--steps=1000000 htp|10|1000000
--budget=1 htp|11|1
--budget=18446744073709551615 htp|11|18446744073709551615
--best=on htp|12|1
--best off htp|12|0";

// Lines that ask for a trace, and its name.
static TRACED: &str = "--trace t htp|t
htp --trace t|t
bench --trace t|t
--trace=a=b htp --size 5|a=b
htp --trace=-|-
--trace=--size=5 htp|--size=5
--trace =é htp|=é
--hsearch off --weight=7 htp --seed 4 --trace a --workers 2|a";

// Lines that are not well formed: by the mode, ranges, numbers, texts, repetitions and values that
// are missing, names, help and version, and hyphens.
static REFUSED: &str = "
HTP
htp\u{20}
 htp
htp htp
play
help
checks
solves
--size=5
htp htp --size=5
--size=0 htp
--size=12 htp
htp --workers 0
--workers=65 htp
--playouts=0 htp
--playouts=1000001 htp
--seed=18446744073709551616 htp
--seed=99999999999999999999 htp
--words=1023 htp
--words=16777217 htp
--expand=0 htp
--expand=1001 htp
--weight=1025 htp
--solve=10000001 htp
--steps=1000001 htp
--budget=0 htp
--budget=18446744073709551616 htp
htp --seed=-1
htp --seed -1
--seed=+1 htp
--seed +1 htp
--seed= htp
--seed  htp
--seed=000000000000000000001 htp
--seed=1_0 htp
--seed=1e3 htp
--size=5=6 htp
--size=0x5 htp
--size=5.0 htp
--size=٣ htp
--look=1000001 htp
--hsearch=ON htp
--hsearch=yes htp
--hsearch= htp
--hsearch - htp
--trace= htp
htp --trace=
--trace  htp
--trace - htp
--trace -t htp
--trace --size=5 htp
--size 5 --size 5 htp
--size=5 htp --size=6
--trace=a --trace b htp
htp --trace t --trace t
htp --trace t --size 12
--trace t
htp --size
htp --trace
--size -- htp
--trace -- htp
--size --seed 1 htp
--size - htp
--siz=5 htp
--s=5 htp
--Size=5 htp
--sizes=5 htp
---size=5 htp
--=5 htp
--mode=htp
--mode htp
-size=5 htp
-s 5 htp
-s5 htp
-5 htp
-é htp
--help
htp --help
-h
htp -h
--version
-V
htp -V
-
htp -
--
-- -htp
htp -- htp
htp -- --
-- -
htp -- -
-- -- htp
-- htp --size 5";

fn words_of(alloc: Global, line: &str) -> Result<Vec<Word>, AllocError> {
    let mut words = Vec::new(alloc);
    for word in line.split(' ') {
        words.push(Word::of(String::from_str(alloc, word)?))?;
    }
    Ok(words)
}

fn read(alloc: Global, line: &str) -> Result<CommandLine, Memory> {
    CommandLine::read(alloc, words_of(alloc, line)?)
}

fn numbers(options: &Options) -> [u64; 13] {
    [
        options.size.get() as u64,
        options.knobs.workers as u64,
        options.knobs.playouts as u64,
        options.knobs.seed,
        options.knobs.words as u64,
        options.knobs.expand as u64,
        options.knobs.weight as u64,
        options.hsearch as u64,
        options.solve as u64,
        options.look as u64,
        options.steps as u64,
        options.budget,
        options.best as u64,
    ]
}

// The defaults with one number at its place.
fn expected(place: usize, number: u64) -> [u64; 13] {
    let mut numbers = [
        11, 1, 10_000, 0, 4_194_304, 8, 180, 1, 0, 0, 10_000, 1_000_000, 0,
    ];
    if let Some(here) = numbers.get_mut(place) {
        *here = number;
    }
    numbers
}

#[test]
fn takes_lines(rt: HostRuntime) -> Result<(), Fail> {
    for row in TAKEN.lines() {
        let (line, rest) = row.split_once('|').ok_or("a row has bars")?;
        let (place, number) = rest.split_once('|').ok_or("a row has two bars")?;
        let was_read = read(rt.alloc(), line)?;
        let options = was_read.options().ok_or("refused")?;
        assert_eq!(rt; options.mode, Mode::Htp);
        assert_eq!(rt;
            numbers(options),
            expected(place.parse()?, number.parse()?),
            "{line}"
        );
        assert!(rt; was_read.trace(rt.alloc())?.is_none(), "{line}");
    }
    Ok(())
}

#[test]
fn takes_modes(rt: HostRuntime) -> Result<(), Fail> {
    let table = [
        ("--seed 1 migrate", Mode::Migrate),
        ("check", Mode::Check),
        ("-- audit", Mode::Audit),
        ("sim --steps 3", Mode::Sim),
        ("bench", Mode::Bench),
        ("--workers=2 -- bench", Mode::Bench),
        ("solve --budget 5", Mode::Solve),
    ];
    for (line, mode) in table {
        let was_read = read(rt.alloc(), line)?;
        let options = was_read.options().ok_or("refused")?;
        assert_eq!(rt; options.mode, mode, "{line}");
        assert!(rt; was_read.trace(rt.alloc())?.is_none(), "{line}");
    }
    Ok(())
}

#[test]
fn takes_traces(rt: HostRuntime) -> Result<(), Fail> {
    for row in TRACED.lines() {
        let (line, name) = row.split_once('|').ok_or("a row has a bar")?;
        let was_read = read(rt.alloc(), line)?;
        let trace = was_read.trace(rt.alloc())?.ok_or("no trace")?;
        assert_eq!(rt; trace.as_str(), name, "{line}");
    }
    Ok(())
}

#[test]
fn refuses_lines(rt: HostRuntime) -> Result<(), Fail> {
    let alloc = rt.alloc();
    for line in REFUSED.lines() {
        let was_read = read(alloc, line)?;
        assert!(rt; was_read.options().is_none(), "{line}");
        assert!(rt; was_read.trace(alloc)?.is_none(), "{line}");
    }
    assert!(rt;
        CommandLine::read(alloc, Vec::new(alloc))?
            .options()
            .is_none()
    );
    Ok(())
}
