use super::*;
use std::alloc::Global;
use std::test::Fail;

/// What is read of a text: a line for each command, or the bad line's number.
fn read(alloc: Global, text: &[u8]) -> Result<String, Fail> {
    if text.len() > 1_048_576 {
        return Ok(String::from_str(alloc, "too large")?);
    }
    let work = match read_work(alloc, text) {
        Ok(work) => work,
        Err(WorkFault::BadWork { line }) => return Ok(format!(in alloc; "bad {line}")?),
        Err(WorkFault::NoMemory) => return Ok(String::from_str(alloc, "no memory")?),
    };
    let mut commands = String::new(alloc);
    for line in work.lines.items() {
        match &line.command {
            Command::Load(name) => {
                let name = name.text();
                write!(commands, "{} load {name};", line.session)?;
            }
            Command::Unload(name) => {
                let name = name.text();
                write!(commands, "{} unload {name};", line.session)?;
            }
            Command::Query(query) => {
                let query = query.items();
                write!(commands, "{} query {query:?};", line.session)?;
            }
            Command::QueryFile(name) => {
                let name = name.text();
                write!(commands, "{} queryfile {name};", line.session)?;
            }
        }
    }
    Ok(commands)
}

#[test]
fn works_are_read(rt: HostRuntime) -> Result<(), Fail> {
    let cases: [(&[u8], &str); 25] = [
        (b"bigfed 1", ""),
        (b"", "bad 1"),
        (b"#\n# no work\n", "bad 3"),
        (b"bigfed 1\n1 lod a.nt\n", "bad 2"),
        (b"bigfed 2\n", "bad 1"),
        (b"1 load a.nt\n", "bad 1"),
        (b"bigfed 1\nbigfed 1\n", "bad 2"),
        (b"bigfed 1\n2 load a.nt\n", "bad 2"),
        (b"bigfed 1\n01 load a.nt\n", "bad 2"),
        (b"bigfed 1\n1 load \n", "bad 2"),
        (b"bigfed 1\n1 load .a\n", "bad 2"),
        (b"bigfed 1\n1  load a\n", "bad 2"),
        (b"bigfed 1\n1 load a/b\n", "bad 2"),
        (b"bigfed 1\n1 load a.nt\r", "bad 2"),
        (b"bigfed 1\n1 query \n", "bad 2"),
        (b"bigfed 1\n1 query\n", "bad 2"),
        (b"bigfed 1\n1 query A\xff#\r\n", "1 query [65, 255, 35];"),
        (b"bigfed 1\n1 load _a-B.9", "1 load _a-B.9;"),
        (b"bigfed 1\n1 unload a.nt\n", "1 unload a.nt;"),
        (b"bigfed 1\n1 unload .nt\n", "bad 2"),
        (b"bigfed 1\n1 queryfile q.rq\n", "1 queryfile q.rq;"),
        (b"bigfed 1\n1 queryfile .rq\n", "bad 2"),
        (b"bigfed 1\n1 queryfile\n", "bad 2"),
        (
            b"\n#\r\nbigfed 1\r\n\r\n1 load a.nt\r\n\n1 load ?\n",
            "bad 7",
        ),
        (
            b"#\nbigfed 1\n1 query  \n#\n1 load a\n",
            "1 query [32];1 load a;",
        ),
    ];
    for (text, expected) in cases {
        assert_eq!(rt; read(rt.alloc(), text)?.as_str(), expected, "at {text:?}");
    }
    Ok(())
}
