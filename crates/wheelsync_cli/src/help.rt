//! The pages of the program, and the words that ask for them. They come before any command, and no command takes such words.
//!
//! The table of commands is `page_of`, a row a command. `bench/pages.py` makes the manual page and the completions of it, and
//! compares the list in `OVERVIEW` with it.

const OVERVIEW: &[u8] = b"wheelsync: what crank and cam edges prove about an engine's position

    wheelsync replay MODEL CAPTURE [--cert FILE] [NAMES]
        replay a capture of edges over a wheel
    wheelsync import SOURCE NAME
        print the slots of a C source's table
    wheelsync size WHEEL
        print the sizes of a wheel's table
    wheelsync compile WHEEL IMAGE
        make a file of the image of a wheel's table
    wheelsync audit IMAGE
        print whether an image holds the table of its own wheel
    wheelsync trace IMAGE CAPTURE [NAMES]
        print the state of an image's table after each instant
    wheelsync check WHEEL CAPTURE REPORT CERT [NAMES]
        print whether a certificate shows a report right
    wheelsync stim WHEEL vcd|csv SEED GAPS FILE
        make a capture of an engine that keeps a wheel's limits
    wheelsync self WHEEL SEED GAPS
        replay an engine that stim draws, and count the verdicts

    wheelsync COMMAND --help    the page of a command
    wheelsync --help            this page, as -h and help
    wheelsync --version         the version

WHEEL is a TOML file: degrees and slots, or teeth and missing, with rpm_low,
rpm_high, ratio, and where wanted kept polarities and the cams' phasing. MODEL
is a WHEEL, or an image that compile made.

CAPTURE has one of two forms, told by its first byte. A CSV file has a header,
and rows of a time in seconds and levels, 0 or 1: the times in the first column,
the levels in those named crank, cam1, cam2. A value change dump (VCD) begins
with $, and has signals of these names. /dev/stdin is standard input.

NAMES are other names of columns and signals: --time NAME, --crank NAME, --cam1
NAME, --cam2 NAME. A cam is read where the wheel has a kept edge on it, or its
option is given.

The status is 0 done, 1 a file is refused, 2 no such command, 3 a read failed, 4
a write failed, 5 out of memory, 6 past a limit, 7 a certificate is not valid. A
line on standard error names the cause, but for 0 and 7. After it replay tells
there how many instants were at, open and lost, and which was the first at.

In the folder of the sources: README.md begins; docs/WHEELS.md is on wheel
files, docs/CAPTURES.md on captures of other tools, docs/READING.md on every
verdict and every line on standard error, docs/FORMATS.md has the formats whole.
examples/wheels are wheels.
";

const REPLAY: &[u8] = b"wheelsync replay MODEL CAPTURE [--cert FILE] [NAMES]
    replay a capture of edges over a wheel

MODEL is a WHEEL, or an image that compile made. The wheel's table is made, or
the image audited, before the capture is opened; then the table is walked.

For each instant one line comes on standard output:

    INDEX TIME SHAPE at J slot S    every permitted motion ends at crank edge J
    INDEX TIME SHAPE open A B       two motions, from A and from B, end apart
    INDEX TIME SHAPE lost           no permitted motion is left; a new window

TIME is in femtoseconds, SHAPE joins C, 1 and 2 (crank, first and second cam)
with + or -. A place is j:n1:n2: the crank edge passed last, and the next edges
of the cams. The places of open are where the motions start, before the window's
first instant.

FILE gets the certificate of the report, a line after each line of the report:
check tests it without any search. It is made, or written over, once the capture
is opened.

NAMES are --time NAME, --crank NAME, --cam1 NAME, --cam2 NAME, for columns and
signals.

At its end two lines come on standard error, after that of a cause if there is
one: how many instants were at, open and lost, and the number of the first at,
or none. They do not come where memory was wanting, or the capture was not
opened.

Example:

    $ wheelsync replay examples/three-teeth.toml examples/three-teeth.csv
    1 0 C+ open 2:0:0 0:0:0
    2 15000000000000 C+ open 1:0:0 2:0:0
    3 30000000000000 C+ at 2 slot 4
    4 60000000000000 C+ at 0 slot 0
    tally at 2 open 2 lost 0
    first at 3

Statuses: 0 done; 1 the wheel, the image or the capture is refused, after the
lines of the instants before its fault; 2 usage; 3 a read failed; 4 a write
failed; 5 out of memory; 6 a file has more than 268435456 bytes, or the wheel
more than 16384 places or a table of too many states.
";

const IMPORT: &[u8] = b"wheelsync import SOURCE NAME
    print the slots of a C source's table

SOURCE is a C file, NAME an array of numbers in it: bit 0 is the crank's level,
bit 1 the first cam's, bit 2 the second's. The line that is printed is that of a
wheel file.

Example:

    $ wheelsync import examples/wheels.c four_minus_one
    slots = [1, 0, 1, 0, 1, 0, 0, 0]

Statuses: 0 done; 1 the source has no such table; 2 usage; 3 a read failed; 4 a
write failed; 5 out of memory; 6 the file has more than 268435456 bytes.
";

const SIZE: &[u8] = b"wheelsync size WHEEL
    print the sizes of a wheel's table

The numbers are the places of the wheel, the times and the ratios with which a
gap is compared, and the rows that a small controller needs to give the same
verdicts.

Example:

    $ wheelsync size examples/three-teeth.toml
    places 3 time-cuts 4 ratio-cuts 6 states 24

Statuses: 0 done; 1 the wheel is refused; 2 usage; 3 a read failed; 4 a write
failed; 5 out of memory; 6 the file has more than 268435456 bytes, the wheel
more than 16384 places, or its table more states than the limit that the line
names.
";

const COMPILE: &[u8] = b"wheelsync compile WHEEL IMAGE
    make a file of the image of a wheel's table

IMAGE is made, or written over, once the image's bytes are there; nothing comes
on standard output. A small decoder that walks the image's table gives the same
verdicts as replay. docs/FORMATS.md has its layout.

Example:

    $ wheelsync compile examples/three-teeth.toml three-teeth.image
    $ wc -c < three-teeth.image
    2888

Statuses: 0 done; 1 the wheel is refused; 2 usage; 3 a read failed; 4 a write
failed; 5 out of memory; 6 the file has more than 268435456 bytes, the wheel
more than 16384 places, or its table more states than the limit that the line
names. At 1, 2, 3 and 6 no file changes; at 4 and 5 a file that was made has the
first part of the image.
";

const AUDIT: &[u8] = b"wheelsync audit IMAGE
    print whether an image holds the table of its own wheel

The wheel is the one that the image names. Where each place, cut, set and entry
of a row is as that wheel has it, a line says how many states and places there
are, and the wheel file follows, in the full form. Else the first rule that is
broken, or the first difference, comes on standard error.

Example:

    $ wheelsync compile examples/three-teeth.toml three-teeth.image
    $ wheelsync audit three-teeth.image | head -n 1
    sound states 24 places 3

Statuses: 0 sound; 1 the image breaks a rule of its layout (image:) or differs
from the table of its wheel (audit:); 2 usage; 3 a read failed; 4 a write
failed; 5 out of memory; 6 the file has more than 268435456 bytes.
";

const TRACE: &[u8] = b"wheelsync trace IMAGE CAPTURE [NAMES]
    print the state of an image's table after each instant

For each instant one line comes on standard output, INDEX TIME SHAPE state Q: a
line as replay's, with the number of the state that the table's walk stands in
after it. After a lost instant this is the state in which the next window
begins. A decoder that walks the same table can be compared, instant by instant.

The image keeps the rules of its layout; whether its table is sound is asked by
audit, and not here. A capture with a fault is refused before any line.

NAMES are --time NAME, --crank NAME, --cam1 NAME, --cam2 NAME, for columns and
signals.

Example:

    $ wheelsync compile examples/three-teeth.toml three-teeth.image
    $ wheelsync trace three-teeth.image examples/three-teeth.csv
    1 0 C+ state 2
    2 15000000000000 C+ state 7
    3 30000000000000 C+ state 20
    4 60000000000000 C+ state 8

Statuses: 0 done; 1 the image or the capture is refused; 2 usage; 3 a read
failed; 4 a write failed; 5 out of memory; 6 a file has more than 268435456
bytes.
";

const CHECK: &[u8] = b"wheelsync check WHEEL CAPTURE REPORT CERT [NAMES]
    print whether a certificate shows a report right

REPORT is what replay prints of the two files before it, CERT a certificate of
it. The answer is yes, or no INSTANT RULE: the first instant that breaks a rule
of certificates, and the first rule that it breaks. docs/FORMATS.md has the
rules.

NAMES are --time NAME, --crank NAME, --cam1 NAME, --cam2 NAME, for columns and
signals.

Example, where the capture's fourth edge comes too early for the long gap:

    $ cd examples/captures
    $ wheelsync check ../three-teeth.toml early.csv early.report early.cert
    yes

Statuses: 0 yes; 1 a file is refused; 2 usage; 3 a read failed; 4 a write
failed; 5 out of memory; 6 a file has more than 268435456 bytes or the wheel
more than 16384 places; 7 no.
";

const STIM: &[u8] = b"wheelsync stim WHEEL vcd|csv SEED GAPS FILE
    make a capture of an engine that keeps a wheel's limits

FILE gets a value change dump, or comma-separated values, of an engine over GAPS
gaps between crank edges, from 1 to 1000000. Its first edge, its speeds and
where the cams' edges lie in their ranges are drawn by SEED, from 0 to
18446744073709551615. One wheel, seed and number of gaps give the same bytes on
each machine. FILE is made, or written over, once its bytes are there; nothing
comes on standard output.

Example:

    $ wheelsync stim examples/three-teeth.toml csv 1 50 engine.csv
    $ wheelsync replay examples/three-teeth.toml engine.csv | wc -l
    tally at 50 open 1 lost 0
    first at 2
    51

Statuses: 0 done; 1 the wheel is refused, or a gap has no time that keeps the
limits (stuck GAP LOW HIGH); 2 usage; 3 a read failed; 4 a write failed; 5 out
of memory; 6 the wheel's file has more than 268435456 bytes, or the engine more
than 4000000 edges. At 1, 2, 3 and 6 no file changes; at 4 and 5 a file that was
made has the first part of the capture.
";

const SELF_TEST: &[u8] = b"wheelsync self WHEEL SEED GAPS
    replay an engine that stim draws, and count the verdicts

The engine is the one that stim draws of the same wheel, seed and number of
gaps. The line tells how many instants it has, how many of them are at, open and
lost, and the number of the first at, or 0. lost is 0: the engine keeps the
wheel's limits.

Example:

    $ wheelsync self examples/three-teeth.toml 1 1000
    instants 1001 at 1000 open 1 lost 0 first 2

Statuses: 0 done; 1 the wheel is refused, or a gap has no time that keeps the
limits (stuck GAP LOW HIGH); 2 usage; 3 a read failed; 4 a write failed; 5 out
of memory; 6 the file has more than 268435456 bytes, the wheel more than 16384
places, its table more states than the limit that the line names, or the engine
more than 4000000 edges.
";

const VERSION: &[u8] = b"wheelsync 0.1.0\n";

/// The page of a command.
fn page_of(command: &str) -> Option<&'static [u8]> {
    match command {
        "replay" => Some(REPLAY),
        "import" => Some(IMPORT),
        "size" => Some(SIZE),
        "compile" => Some(COMPILE),
        "audit" => Some(AUDIT),
        "trace" => Some(TRACE),
        "check" => Some(CHECK),
        "stim" => Some(STIM),
        "self" => Some(SELF_TEST),
        _ => None,
    }
}

/// The page that the words ask for: the overview, the version, or that of a command.
pub fn answer(words: &[String]) -> Option<&'static [u8]> {
    match words {
        [word] => match word.as_str() {
            "--help" | "-h" | "help" => Some(OVERVIEW),
            "--version" => Some(VERSION),
            _ => None,
        },
        [command, word] if word.as_str() == "--help" => page_of(command.as_str()),
        _ => None,
    }
}
