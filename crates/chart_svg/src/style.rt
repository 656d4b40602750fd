//! Colours and fonts, for light and for dark. Each lock has one hue in all lanes; what waits is hatched in it.
use crate::shapes::{Class, Form, Shape, add};
use crate::wording::Pushed;
use chart_words::push_words;
use lock_model::{Plan, push_digits};
use std::alloc::{AllocError, Global};

// What doesn't depend on the plan.
const LIGHT: &[u8] = b"\
    text{font-family:system-ui,-apple-system,Segoe UI,Roboto,Noto Sans,DejaVu Sans,sans-serif;font-size:12px;fill:#1a202c}\n\
    .title{font-size:20px;font-weight:700}\n\
    .sub{font-size:13px;fill:#64748b}\n\
    .right{font-size:12px;fill:#64748b;text-anchor:end}\n\
    .good,.fair,.bad{font-size:14px;font-weight:700;text-anchor:end}\n\
    .good{fill:#2f855a}.fair{fill:#b7660b}.bad{fill:#c53030}\n\
    .name{font-size:15px;font-weight:700}\n\
    .gray{font-size:10.5px;fill:#64748b}\n\
    .tick{font-size:9px;fill:#94a3b8;text-anchor:end}.hint{font-size:9px;fill:#64748b}\n\
    .turn{font-size:10px;fill:#64748b;text-anchor:middle}\n\
    .verb{font-size:10px;fill:#334155;text-anchor:middle}\n\
    .no{font-size:10px;font-weight:700;fill:#c53030;text-anchor:middle;paint-order:stroke;stroke:#fff;stroke-width:3px}\n\
    .never{font-weight:700;fill:#c53030}\n\
    .head{font-weight:700;fill:#64748b}\n\
    .nr{font-size:11px;fill:#64748b;text-anchor:end}\n\
    .said{font-size:12.5px}\n\
    .end{font-size:12.5px;font-weight:700}\n\
    .mono,.stop{font-family:ui-monospace,SFMono-Regular,Menlo,Consolas,DejaVu Sans Mono,monospace;font-size:11.5px;fill:#475569}\n\
    .stop{fill:#c53030}\n\
    .on{font-size:11.5px;font-weight:600;fill:#fff}\n\
    .wok{font-size:11.5px;font-weight:600;fill:#2f855a}\n\
    .as{font-size:11px;font-weight:600;fill:#8a4b00;paint-order:stroke;stroke:#fdd9a5;stroke-width:3px}\n\
    .lend,.wake,.walk{font-size:11px;font-weight:600;paint-order:stroke;stroke:#fff;stroke-width:3px}\n\
    .lend{fill:#c96a00}.wake{fill:#2f855a}\n\
    .walk{font-size:9px;font-weight:400;fill:#a85800}\n\
    .paper{fill:#fff}.zebra{fill:#f4f8fc}\n\
    .dot{fill:#1a202c}.idle{fill:none;stroke:#94a3b8}\n\
    .cross{fill:none;stroke:#c53030;stroke-width:2.5}\n\
    .line,.stops,.axis{fill:none;stroke:#cbd5e1;stroke-width:1.5}\n\
    .stops{stroke:#64748b}\n\
    .woken{fill:#f0fdf4;stroke:#2f855a;stroke-width:1.2;stroke-dasharray:3 2}\n\
    .walks{fill:#dd7a00}.loan{fill:#fdd9a5}\n\
    .runs,.lends{fill:none;stroke:#dd7a00;stroke-width:2}\n\
    .base{fill:none;stroke:#b8a48a;stroke-dasharray:3 3}\n\
    .wakes{fill:none;stroke:#2f855a;stroke-width:2}\n\
    .block,.refused{fill:none;stroke:#475569;stroke-width:1.5;stroke-dasharray:4 3}.refused{stroke:#c53030}\n\
    .lendhead{fill:#dd7a00}.wakehead{fill:#2f855a}.blockhead{fill:#475569}.refusedhead{fill:#c53030}\n\
    .pale{fill:none;stroke:#f3c78f}.palehead{fill:#f3c78f}\n\
    .lendhead,.wakehead,.blockhead,.palehead,.refusedhead{paint-order:stroke;stroke:#fff;stroke-width:2px}\n\
    .chan{fill:url(#hq);stroke:#64748b;stroke-width:1.3}\n\
    .taken{fill:none;stroke:#64748b;stroke-width:1.3;stroke-dasharray:8 4}\n\
    .onchan{font-size:11.5px;font-weight:600;fill:#334155;paint-order:stroke;stroke:#fff;stroke-width:3px}\n\
    .hatchq{stroke:#94a3b8;stroke-width:2}.halo{paint-order:stroke;stroke:#fff;stroke-width:2.5px}\n\
";

// The same in the dark.
const DARK: &[u8] = b"\
    @media screen and (prefers-color-scheme:dark){\n\
    text{fill:#e2e8f0}.sub,.right,.gray,.hint,.turn,.head,.nr{fill:#94a3b8}.verb{fill:#cbd5e1}.mono{fill:#a8b3c4}\n\
    .good,.wake,.wok{fill:#68d391}.fair{fill:#f6ad55}.bad,.no,.never,.stop{fill:#fc8181}\n\
    .lend,.wake,.walk,.no,.onchan,.halo,.lendhead,.wakehead,.blockhead,.palehead,.refusedhead{stroke:#0f141c}.lend,.walk{fill:#f6ad55}.onchan{fill:#cbd5e1}\n\
    .as{fill:#fbd38d;stroke:#5c3a10}.on{fill:#0f141c}.chan,.taken{stroke:#94a3b8}\n\
    .paper{fill:#0f141c}.zebra{fill:#151c27}.dot{fill:#e2e8f0}.cross{stroke:#fc8181}\n\
    .line,.axis{stroke:#334155}.stops{stroke:#94a3b8}.woken{fill:#12261c;stroke:#68d391}\n\
    .wakes{stroke:#68d391}.wakehead{fill:#68d391}\n\
    .loan{fill:#5c3a10}.block{stroke:#94a3b8}.blockhead{fill:#94a3b8}.refused{stroke:#fc8181}.refusedhead{fill:#fc8181}.pale{stroke:#7a5220}.palehead{fill:#7a5220}\n\
";

// The hues of the locks, by day and by night: none is the green of waking, the orange of lending or the red of
// refusals.
const HUES: [(&str, &str); 10] = [
    ("#2b6cb0", "#63b3ed"),
    ("#7341c9", "#b794ff"),
    ("#b3247f", "#ff7ad1"),
    ("#6f4518", "#c49a6c"),
    ("#007a87", "#2ad4dc"),
    ("#5f6b00", "#d4dc6a"),
    ("#1c2f7c", "#6c82ff"),
    ("#5a1e5c", "#e4b4ee"),
    ("#9c5478", "#c28aa3"),
    ("#3c3c46", "#d4d4dc"),
];

/// Adds the style, and the hatchings of those who wait for a lock, or who sleep on channels.
pub fn add_style(alloc: Global, shapes: &mut Vec<Shape>, plan: &Plan) -> Pushed {
    let locks = plan.locks.as_slice().len();
    add(
        shapes,
        Shape(Class::None, Form::Style(rules_of(alloc, locks)?)),
    )?;
    add(shapes, hatch(Vec::from_slice(alloc, b"q")?))?;
    for l in 0..locks {
        let mut number = Vec::new(alloc);
        push_digits(&mut number, l as u64)?;
        add(shapes, hatch(number))?;
    }
    Ok(())
}

fn hatch(name: Vec<u8>) -> Shape {
    Shape(Class::None, Form::Hatch(name))
}

fn rules_of(alloc: Global, locks: usize) -> Result<Vec<u8>, AllocError> {
    let mut rules = Vec::from_slice(alloc, LIGHT)?;
    for l in 0..locks {
        push_hue(&mut rules, l as u64, HUES[l % 10].0)?;
    }
    push_words(&mut rules, DARK)?;
    for l in 0..locks {
        push_hue(&mut rules, l as u64, HUES[l % 10].1)?;
    }
    push_words(&mut rules, b"}\n")?;
    Ok(rules)
}

// A lock's colour: held, read, waited for, taken off its queue, the hatching, and the words of a wait.
const OF_LOCKS: [(&str, &str); 7] = [
    (".holds", "{fill:"),
    (".reads", "{fill-opacity:.25;stroke-width:1.3;fill:"),
    (".reads", "{stroke:"),
    (".waits", "{stroke-width:1.3;stroke:"),
    (
        ".taken",
        "{fill:none;stroke-width:1.3;stroke-dasharray:8 4;stroke:",
    ),
    (".hatch", "{stroke-width:2;stroke-opacity:.4;stroke:"),
    (".of", "{font-size:11.5px;font-weight:600;fill:"),
];

fn push_hue(rules: &mut Vec<u8>, l: u64, hue: &'static str) -> Pushed {
    for (class, words) in &OF_LOCKS {
        push_of(rules, class, l)?;
        push_rule(rules, words, hue)?;
    }
    push_of(rules, ".waits", l)?;
    push_of(rules, "{fill:url(#h", l)?;
    push_words(rules, b")}\n")
}

// A name, and a lock's number behind it.
fn push_of(rules: &mut Vec<u8>, name: &'static str, l: u64) -> Pushed {
    push_words(rules, name.as_bytes())?;
    push_digits(rules, l)
}

// The rest of a rule, up to a hue.
fn push_rule(rules: &mut Vec<u8>, words: &'static str, hue: &'static str) -> Pushed {
    push_words(rules, words.as_bytes())?;
    push_words(rules, hue.as_bytes())?;
    push_words(rules, b"}")
}
