//! What is outside the grammar of scripts: the first line of it that is told, where no clause rules
//! out that want of memory is told in its place.
use media_script::{ScriptError, read_script};
use std::alloc::Global;

// Whether this line of a text is the first outside the grammar.
fn is_outside(alloc: Global, text: &[u8], line: u64) -> bool {
    read_script(alloc, text).err() == Some(ScriptError::Syntax(line))
}

// Scripts, and the first line of each that is outside the grammar: one whose words are read, or one
// that is missing or cut behind such a line.
static OUTSIDE: [(&str, u64); 10] = [
    ("str0m-media 1\nkey -\nbegin\nend\nend\n", 5),
    ("str0m-media 1\nbegin\ntick A 1\ntick A\nend\n", 4),
    ("str0m-media 1\nkey zero\nbegin\ntick A 1\n", 5),
    ("str0m-media 1\nkey zero\nbegin\nend", 4),
    ("str0m-media 1\ntype 96 vp10 90000\n", 2),
    ("str0m-media 1\nmedia v-1 video cam\n", 2),
    ("str0m-media 1\nmedia v video cam\nstream A w 42 - -\n", 3),
    ("str0m-media 1\nreports 5000 1000\nreports 5000 1000\n", 3),
    ("str0m-media 1\nkey zero\nbegin\napp A 1 1 42\nend\n", 4),
    ("str0m-media 1\nkey zero\nbegin\ndeliver A 1ms\nend\n", 4),
];

#[test]
fn first_line_outside_is_told(rt: HostRuntime) {
    for (text, line) in &OUTSIDE {
        assert!(rt;
            is_outside(rt.alloc(), text.as_bytes(), *line),
            "at {text:?}"
        );
    }
}
