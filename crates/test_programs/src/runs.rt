//! What is written and told for the words of a command line.

use crate::host::MemoryHost;
use std::alloc::{AllocError, Global};
use std::process::Abort;
use std::test::*;
use xls_tool::{MemorySink, run};

fn words_of(alloc: Global, words: &[&str]) -> Result<Vec<String>, AllocError> {
    let mut all = Vec::new(alloc);
    for word in words {
        all.push(String::from_str(alloc, word)?)?;
    }
    Ok(all)
}

/// A run: the words, the status, what is written to standard output, what is told, and the files that are written.
type Run = (
    &'static [&'static str],
    u8,
    &'static str,
    &'static str,
    &'static str,
);

const DUMP: &str =
    "dates\t1900\nsheet\tA\tworksheet\tvisible\ncell\t0\t0\tfloat\t4.5\nsheet\tB/\tworksheet\thidden\ncell\t1\t2\ttext\ta;b\n";

const SHEETS: &str = "sheet\tA\tworksheet\tvisible\nsheet\tB/\tworksheet\thidden\n";

static RUNS: [Run; 50] = [
    // One file.
    (&["a.xls"], 0, DUMP, "", ""),
    (
        &["dump", "./a.xls"],
        10,
        "",
        "xls: ./a.xls: not found\n",
        "",
    ),
    (
        &["--exact", "a.xls"],
        0,
        "dates\t1900\nsheet\tA\tworksheet\tvisible\ncell\t0\t0\tfloat\t0x4012000000000000\nsheet\tB/\tworksheet\thidden\ncell\t1\t2\ttext\ta;b\n",
        "",
        "",
    ),
    (
        &["dump", "--json", "a.xls"],
        0,
        "{\"line\":\"dates\",\"year\":\"1900\"}\n{\"line\":\"sheet\",\"name\":\"A\",\"kind\":\"worksheet\",\"visibility\":\"visible\"}\n{\"line\":\"cell\",\"row\":0,\"column\":0,\"kind\":\"float\",\"value\":4.5}\n{\"line\":\"sheet\",\"name\":\"B/\",\"kind\":\"worksheet\",\"visibility\":\"hidden\"}\n{\"line\":\"cell\",\"row\":1,\"column\":2,\"kind\":\"text\",\"value\":\"a;b\"}\n",
        "",
        "",
    ),
    (&["sheets", "a.xls"], 0, SHEETS, "", ""),
    (&["formulas", "a.xls"], 0, SHEETS, "", ""),
    (&["refs", "a.xls"], 0, "", "", ""),
    (&["hidden", "a.xls"], 0, SHEETS, "", ""),
    (&["check", "a.xls"], 0, "ok\n", "", ""),
    (&["csv", "a.xls"], 0, "4.5\n", "", ""),
    (
        &["csv", "--exact", "a.xls"],
        0,
        "0x4012000000000000\n",
        "",
        "",
    ),
    (&["csv", "--number", "2", "a.xls"], 0, "a;b\n", "", ""),
    (
        &["csv", "--sheet", "B/", "--delimiter", ";", "--bom", "a.xls"],
        0,
        "\u{FEFF}\"a;b\"\n",
        "",
        "",
    ),
    (
        &["csv", "--sheet", "C", "a.xls"],
        1,
        "",
        "xls: a.xls: Worksheet 'C' not found\nxls: a.xls: xls sheets tells the names, in which case counts; --number N chooses a sheet by its number\n",
        "",
    ),
    (
        &["csv", "--number", "3", "a.xls"],
        1,
        "",
        "xls: a.xls: it has no sheet 3\n",
        "",
    ),
    (
        &["csv", "d/e/f.xlt"],
        1,
        "",
        "xls: d/e/f.xlt: it has no worksheet\n",
        "",
    ),
    (
        &["check", "d/b.XLS"],
        1,
        "",
        "xls: d/b.XLS: End of stream 'sheet offset'\n",
        "",
    ),
    (
        &["z.zip"],
        11,
        "",
        "xls: z.zip: no workbook: it is a ZIP file, as .xlsx, .xlsb and .ods are\n",
        "",
    ),
    (
        &["d/p.xla"],
        17,
        "",
        "xls: d/p.xla: its password is wanted: --password-file FILE\n",
        "",
    ),
    (
        &["props", "a.xls"],
        12,
        "",
        "xls: a.xls: it has no property streams\n",
        "",
    ),
    (
        &["vba", "a.xls"],
        12,
        "",
        "xls: a.xls: it has no macro project (no stream VBA/dir)\n",
        "",
    ),
    (
        &["streams", "a.xls"],
        12,
        "",
        "xls: a.xls: it is a workbook's stream alone, without other streams\n",
        "",
    ),
    (&["pipe"], 10, "", "xls: pipe: it is no regular file\n", ""),
    // Into files.
    (
        &["sheets", "--out", "new", "a.xls"],
        0,
        "",
        "",
        "new/a.xls.out/sheets.txt=sheet\tA\tworksheet\tvisible\nsheet\tB/\tworksheet\thidden\n",
    ),
    (
        &["sheets", "--out", "out", "a.xls"],
        16,
        "",
        "xls: a.xls: out/a.xls.out/sheets.txt: File exists\n",
        "",
    ),
    (
        &["sheets", "--out", "out", "--force", "a.xls"],
        0,
        "",
        "",
        "out/a.xls.out/sheets.txt=sheet\tA\tworksheet\tvisible\nsheet\tB/\tworksheet\thidden\n",
    ),
    (
        &["csv", "--all", "--out", "new", "a.xls"],
        0,
        "",
        "xls: a.xls: sheet 'B/' is hidden\n",
        "new/a.xls.out/01-A.csv=4.5\nnew/a.xls.out/02-B_.csv=a;b\n",
    ),
    (
        &["dump", "--out", "new", "d/b.XLS"],
        1,
        "",
        "xls: d/b.XLS: End of stream 'sheet offset'\n",
        "",
    ),
    // Many files.
    (
        &["check", "d"],
        17,
        "refused\td/b.XLS\tEnd of stream 'sheet offset'\nok\td/e/f.xlt\nunread\td/p.xla\tits password is wanted: --password-file FILE\nfiles\t3\t1 ok\t1 refused\t1 unread\t0 failed\t0 exists\n",
        "",
        "",
    ),
    (
        &["check", "a.xls", "missing", "z.zip"],
        11,
        "ok\ta.xls\nunread\tmissing\tnot found\nunread\tz.zip\tno workbook: it is a ZIP file, as .xlsx, .xlsb and .ods are\nfiles\t3\t1 ok\t0 refused\t2 unread\t0 failed\t0 exists\n",
        "",
        "",
    ),
    (
        &["check", "--json", "a.xls", "d/b.XLS"],
        1,
        "{\"line\":\"ok\",\"file\":\"a.xls\"}\n{\"line\":\"refused\",\"file\":\"d/b.XLS\",\"why\":\"End of stream 'sheet offset'\"}\n{\"line\":\"files\",\"count\":2,\"ok\":1,\"refused\":1,\"unread\":0,\"failed\":0,\"exists\":0}\n",
        "",
        "",
    ),
    (
        &["csv", "--out", "new", "a.xls", "d/../a.xls"],
        10,
        "ok\ta.xls\nunread\td/../a.xls\tnot found\nfiles\t2\t1 ok\t0 refused\t1 unread\t0 failed\t0 exists\n",
        "",
        "new/a.xls.out/01-A.csv=4.5\n",
    ),
    (
        &["sheets", "--out", "out", "a.xls", "d/e"],
        16,
        "exists\ta.xls\tout/a.xls.out/sheets.txt: File exists\nok\td/e/f.xlt\nfiles\t2\t1 ok\t0 refused\t0 unread\t0 failed\t1 exists\n",
        "",
        "out/d/e/f.xlt.out/sheets.txt=",
    ),
    (
        &["check", "--files-from", "list"],
        11,
        "ok\ta.xls\nunread\tz.zip\tno workbook: it is a ZIP file, as .xlsx, .xlsb and .ods are\n",
        "files\t2\t1 ok\t0 refused\t1 unread\t0 failed\t0 exists\n",
        "",
    ),
    // Wrong words.
    (
        &["csv", "a.xls", "d"],
        2,
        "",
        "error: many files want --out DIR (but for check)\n",
        "",
    ),
    (
        &["csv", "--all", "a.xls"],
        2,
        "",
        "error: --all wants --out DIR\n",
        "",
    ),
    (
        &["sheets", "--out", "out", "--skip-existing", "a.xls", "d/e"],
        0,
        "exists\ta.xls\tout/a.xls.out/sheets.txt: File exists\nok\td/e/f.xlt\nfiles\t2\t1 ok\t0 refused\t0 unread\t0 failed\t1 exists\n",
        "",
        "out/d/e/f.xlt.out/sheets.txt=",
    ),
    (
        &["sheets", "--out", "out", "--skip-existing", "a.xls"],
        0,
        "",
        "",
        "",
    ),
    (
        &["csv", "--all", "--out", "older", "--skip-existing", "a.xls"],
        0,
        "",
        "xls: a.xls: sheet 'B/' is hidden\n",
        "older/a.xls.out/02-B_.csv=a;b\n",
    ),
    (
        &["csv", "--all", "--out", "older", "a.xls"],
        16,
        "",
        "xls: a.xls: older/a.xls.out/01-A.csv: File exists\n",
        "",
    ),
    (
        &["dump", "--out", "", "a.xls"],
        2,
        "",
        "error: --out wants the name of a folder; . is this one\n",
        "",
    ),
    (
        &["dump", "--force", "a.xls"],
        2,
        "",
        "error: --force and --skip-existing want --out DIR\n",
        "",
    ),
    (
        &["check", "-0", "a.xls"],
        2,
        "",
        "error: -0 wants --files-from LIST\n",
        "",
    ),
    (&["version"], 0, "xls 0.45.0\n", "", ""),
    (
        &["help", "cvs"],
        2,
        "",
        "error: help is of one command: xls help [COMMAND]\n",
        "",
    ),
    (
        &["chek"],
        10,
        "",
        "xls: chek: not found\nxls: chek: the command check stands before its files\n",
        "",
    ),
    (
        &["a.xls", "csv"],
        2,
        "",
        "xls: csv: there is no such file\nxls: csv: the command csv stands before its files\n",
        "",
    ),
    (
        &["csv", "a.xls", "Data"],
        2,
        "",
        "xls: Data: there is no such file; --sheet NAME chooses a sheet\n",
        "",
    ),
    (&["--version"], 0, "xls 0.45.0\n", "", ""),
    (&["remake", "d"], 10, "", "xls: d: it is a folder\n", ""),
];

/// What a run writes and tells.
#[derive(Drop)]
struct Reported {
    status: u8,
    text: Vec<u8>,
    host: MemoryHost,
}

fn outcome(alloc: Global, words: &[&str], room: usize) -> Result<Reported, AllocError> {
    let mut host = MemoryHost::new(alloc);
    host.names.push("z.zip")?;
    host.names.push("")?;
    host.names.push("a.xls")?;
    let mut sink = MemorySink::new(alloc, room, 64, Vec::new(alloc))?;
    let status = run(alloc, &mut host, &mut sink, &words_of(alloc, words)?);
    Ok(Reported {
        status,
        text: sink.as_slice().to_vec(alloc)?,
        host,
    })
}

/// What a run did, as one text: its status, what it wrote, what it told and which files it wrote.
fn name_texts(alloc: Global, words: &[&str]) -> Result<String, AllocError> {
    let reported = outcome(alloc, words, 4096)?;
    let text = String::from_utf8_lossy(alloc, &reported.text)?;
    format!(in alloc;
        "{}|{text}|{}|{}",
        reported.status, reported.host.said, reported.host.written
    )
}

fn check(rt: &impl Abort, alloc: Global, run: &Run) -> Result<(), Fail> {
    let (words, status, text, said, written) = run;
    let wanted = format!(in alloc; "{status}|{text}|{said}|{written}")?;
    assert_eq!(rt; name_texts(alloc, words)?.as_str(), wanted.as_str());
    Ok(())
}

#[test]
fn does_what_the_words_ask_for(rt: HostRuntime) -> Result<(), Fail> {
    for run in RUNS.iter() {
        check(&rt, rt.alloc(), run)?;
    }
    Ok(())
}

/// A full output ends a run with status 4.
#[test]
fn a_full_output_ends_with_4(rt: HostRuntime) -> Result<(), Fail> {
    for room in 0..DUMP.len() {
        let reported = outcome(rt.alloc(), &["a.xls"], room)?;
        assert_eq!(rt; reported.status, 4);
    }
    Ok(())
}
