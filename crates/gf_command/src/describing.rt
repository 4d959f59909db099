//! The command line as clap reads it and its help tells it.

ghost use Rattle.std.specs.Prelude.{◌≡◌, IfOk, codes, map};
ghost use Rattle.clap.specs.Walk.{rule_of};
ghost use Rattle.clap.specs.Simple.{app_of, shape_of};
ghost use Rattle.gf_command.specs.CommandLine as line;
ghost use Rattle.gf_command.specs.Usages.{options_of, usage_shape, leaf};

use clap::builder::ValueParser;
use clap::{Arg, ArgAction, Command};
use std::alloc::{AllocError, Global};

/// How the help tells a run, and which options it takes.
#[derive(Clone, Copy)]
struct Usage {
    name: &'static str,
    about: &'static str,
    example: &'static str,
    takes: Takes,
}

/// Which options a run takes.
#[derive(Clone, Copy)]
enum Takes {
    Fig,
    Canvas,
    Query,
    Site,
    Drawing,
    Check,
    Editor,
    Sites,
    Requests,
}

const RUNS: [Usage; 11] = [
    Usage {
        name: "fig",
        about: "Read operation lines from standard input and write the FIG text of their drawing",
        example: "Example: cat site-*.jsonl | figgroup fig > drawing.fig",
        takes: Takes::Fig,
    },
    Usage {
        name: "paint",
        about: "Read operation lines from standard input and write a picture of their drawing, as raw PPM",
        example: "Example: figgroup paint --step 15 --width 800 --height 560 < edits.jsonl > drawing.ppm",
        takes: Takes::Canvas,
    },
    Usage {
        name: "repaint",
        about: "Read a FIG text from standard input and write a picture of its drawing, as raw PPM",
        example: "Example: figgroup repaint --step 15 --width 800 --height 560 < drawing.fig > drawing.ppm",
        takes: Takes::Canvas,
    },
    Usage {
        name: "inspect",
        about: "Read operation lines from standard input and write the versions of one object or of many, \
                or what is on top at a point; one of the two is given",
        example: "Example: figgroup inspect --object 1.2 < edits.jsonl",
        takes: Takes::Query,
    },
    Usage {
        name: "import",
        about: "Read a FIG text and write the command lines by which one site creates its figures, to be \
                given to edit",
        example: "Example: figgroup import --site 2 < drawn.fig > changes.jsonl",
        takes: Takes::Site,
    },
    Usage {
        name: "edit",
        about: "Read operation lines of all sites and command lines of one, and write the operations that \
                the commands make, to be added to the site's own file",
        example: "Example: cat site-*.jsonl changes.jsonl | figgroup edit --site 2 >> site-2.jsonl",
        takes: Takes::Site,
    },
    Usage {
        name: "take",
        about: "Read operation lines and behind them a FIG text of fig --named that was changed since, \
                and write the operations by which one site changes its drawing so, to be added to the \
                site's own file; what is drawn anew in xfig -startlinewidth 0 -startfillstyle 20 can be \
                taken",
        example: "Example: cat site-*.jsonl drawing.fig | figgroup take --site 2 > changes.jsonl",
        takes: Takes::Drawing,
    },
    Usage {
        name: "status",
        about: "Read operation lines and write how many operations each site has, what waits for what, \
                and which objects have several versions, with what differs among them",
        example: "Example: cat site-*.jsonl | figgroup status",
        takes: Takes::Check,
    },
    Usage {
        name: "check",
        about: "Read operation lines and write what is wrong with them: a line for each fault, with an \
                explanation; the status is 1 if there is one; it does not look at how many versions or \
                colours a drawing has (status tells the versions)",
        example: "Example: figgroup check < edits.jsonl",
        takes: Takes::Editor,
    },
    Usage {
        name: "session",
        about: "Read script lines from standard input, run the scripts of all sites at the same time, \
                and write what became of their commands and the FIG text of their common history",
        example: "Example: figgroup session --sites 3 < script.jsonl",
        takes: Takes::Sites,
    },
    Usage {
        name: "serve",
        about: "Stay, and answer requests from standard input, each as take, fig --named or status \
                answers all operation lines that came before",
        example: "Example: figgroup serve < requests > answers",
        takes: Takes::Requests,
    },
];

/// The program, with a command for each run.
pub(crate) fn program<'a>(alloc: Global) -> Result<Command<'a>, AllocError>
    ensures { IfOk result (λ c. app_of c ≡ line.program) }
{
    let runs = commands(alloc, &RUNS)?;
    Command::new(alloc, "figgroup")
        .version("0.1.0")
        .about("Figures drawn by a group")
        .after_help("Example: figgroup fig < edits.jsonl > drawing.fig")
        .subcommand_required(true)
        .arg_required_else_help(true)
        .subcommands(runs)
}

/// The commands of these runs.
fn commands<'a>(alloc: Global, runs: &[Usage]) -> Result<Vec<Command<'a>>, AllocError>
    ensures { IfOk result (λ cs. map shape_of cs.items ≡ map usage_shape runs.now) }
{
    let mut commands = Vec::new(alloc);
    for run in runs {
        commands.push(command(alloc, run)?)?;
    }
    Ok(commands)
}

/// The command of a run.
fn command<'a>(alloc: Global, run: &Usage) -> Result<Command<'a>, AllocError>
    ensures { IfOk result (λ c. app_of c ≡ leaf (usage_shape run.now)) }
{
    let options = options(alloc, run.takes)?;
    Command::new(alloc, run.name)
        .about(run.about)
        .after_help(run.example)
        .args(options)
}

/// The options that a run takes.
fn options<'a>(alloc: Global, takes: Takes) -> Result<Vec<Arg<'a>>, AllocError>
    ensures { IfOk result (λ args. map rule_of args.items ≡ options_of takes) }
{
    match takes {
        Takes::Fig => fig(alloc),
        Takes::Canvas => canvas(alloc),
        Takes::Query => query(alloc),
        Takes::Site => site(alloc),
        Takes::Drawing => drawing(alloc),
        Takes::Check => check(alloc),
        Takes::Editor => editor(alloc),
        Takes::Sites => sites(alloc),
        Takes::Requests => requests(alloc),
    }
}

/// The options of a FIG text.
fn fig<'a>(alloc: Global) -> Result<Vec<Arg<'a>>, AllocError>
    ensures { IfOk result (λ args. map rule_of args.items ≡ line.fig_options) }
{
    Ok(vec![in alloc;
        flag(
            alloc,
            "named",
            "Name in a comment which version each figure is",
        ),
        reading(alloc),
    ]?)
}

/// How many workers read the lines of a run.
fn reading<'a>(alloc: Global) -> Arg<'a>
    ensures { rule_of result ≡ line.reading }
{
    count(
        alloc,
        "workers",
        "4",
        16,
        "How many workers read the lines, 1 to 16; a short input is read by one",
    )
}

/// The options of a picture.
fn canvas<'a>(alloc: Global) -> Result<Vec<Arg<'a>>, AllocError>
    ensures { IfOk result (λ args. map rule_of args.items ≡ line.picture_options) }
{
    Ok(vec![in alloc;
        place(
            alloc,
            "x",
            "The x of the first column, -2,000,000 to 2,000,000 [default: 0]",
        ),
        place(
            alloc,
            "y",
            "The y of the first row, -2,000,000 to 2,000,000 [default: 0]",
        ),
        optional(
            alloc,
            "step",
            ValueParser::unsigned(1, 10_000),
            "How far the points of neighbouring pixels are apart, 1 to 10,000 [default: 1]",
        ),
        flag(
            alloc,
            "fit",
            "Choose the corner and the least step by which all figures fit, with a margin of a twentieth \
             of the columns and of the rows at each side; goes without --x, --y and --step",
        ),
        count(
            alloc,
            "width",
            "64",
            4_096,
            "How many columns the picture has, 1 to 4,096",
        ),
        count(
            alloc,
            "height",
            "64",
            4_096,
            "How many rows the picture has, 1 to 4,096",
        ),
        count(
            alloc,
            "workers",
            "1",
            16,
            "How many workers read and paint it, 1 to 16",
        ),
    ]?)
}

/// The options of a query.
fn query<'a>(alloc: Global) -> Result<Vec<Arg<'a>>, AllocError>
    ensures { IfOk result (λ args. map rule_of args.items ≡ line.query_options) }
{
    Ok(vec![in alloc;
        text(
            alloc,
            "object",
            "SITE.SEQ|several|all",
            "Tell the versions of this object, hidden ones too, topmost first; SITE is 1 to 8, SEQ 1 to \
             10,000; or those of each object with several versions, or those of all objects",
        ),
        text(
            alloc,
            "at",
            "X,Y",
            "Tell the version on top at this point, as --at=-5,7; X and Y are -2,147,483,648 to \
             2,147,483,647",
        ),
        json(alloc),
        reading(alloc),
    ]?)
}

/// The option of an edit and of an import.
fn site<'a>(alloc: Global) -> Result<Vec<Arg<'a>>, AllocError>
    ensures { IfOk result (λ args. map rule_of args.items ≡ line.site_options) }
{
    Ok(vec![in alloc; author(alloc)]?)
}

/// The options of a take.
fn drawing<'a>(alloc: Global) -> Result<Vec<Arg<'a>>, AllocError>
    ensures { IfOk result (λ args. map rule_of args.items ≡ line.take_options) }
{
    Ok(vec![in alloc;
        author(alloc),
        optional(
            alloc,
            "after",
            ValueParser::unsigned(0, 10_000),
            "Make nothing where the site has made more operations than this, 0 to 10,000",
        ),
        flag(
            alloc,
            "named",
            "Write the drawing of all behind the operations, as fig --named does, where it has one",
        ),
        reading(alloc),
    ]?)
}

/// Which site makes the operations of a run.
fn author<'a>(alloc: Global) -> Arg<'a>
    ensures { rule_of result ≡ line.author }
{
    text(alloc, "site", "N", "Whose operations they are, 1 to 8")
        .required(true)
        .value_parser(ValueParser::unsigned(1, 8))
}

/// The options of a status.
fn check<'a>(alloc: Global) -> Result<Vec<Arg<'a>>, AllocError>
    ensures { IfOk result (λ args. map rule_of args.items ≡ line.status_options) }
{
    Ok(vec![in alloc;
        flag(
            alloc,
            "check",
            "End with status 1 where an operation waits, where shown versions differ or are more than 1,000, \
             where a change that nothing shows did not know what hides it, or where an object was hidden by \
             two who did not know of each other",
        ),
        json(alloc),
        reading(alloc),
    ]?)
}

/// Whether lines are JSON.
fn json<'a>(alloc: Global) -> Arg<'a>
    ensures { rule_of result ≡ line.flag (codes "json") }
{
    flag(alloc, "json", "Write lines of JSON, for programs")
}

/// The option of a check.
fn editor<'a>(alloc: Global) -> Result<Vec<Arg<'a>>, AllocError>
    ensures { IfOk result (λ args. map rule_of args.items ≡ line.check_options) }
{
    let site = optional(
        alloc,
        "site",
        ValueParser::unsigned(1, 8),
        "Check the command lines of this site too, as edit reads them, 1 to 8",
    );
    Ok(vec![in alloc; site]?)
}

/// The option of a session.
fn sites<'a>(alloc: Global) -> Result<Vec<Arg<'a>>, AllocError>
    ensures { IfOk result (λ args. map rule_of args.items ≡ line.session_options) }
{
    let sites = number(
        alloc,
        "sites",
        "2",
        ValueParser::unsigned(2, 8),
        "How many sites there are, 2 to 8",
    );
    Ok(vec![in alloc; sites]?)
}

/// The option of a service.
fn requests<'a>(alloc: Global) -> Result<Vec<Arg<'a>>, AllocError>
    ensures { IfOk result (λ args. map rule_of args.items ≡ line.service_options) }
{
    Ok(vec![in alloc; reading(alloc)]?)
}

/// An option for a coordinate.
fn place<'a>(alloc: Global, name: &'a str, help: &'a str) -> Arg<'a>
    ensures { rule_of result ≡ line.place_option name.now }
{
    optional(
        alloc,
        name,
        ValueParser::signed(-2_000_000, 2_000_000),
        help,
    )
}

/// An option for a number that this parser takes, which may be left out.
fn optional<'a>(alloc: Global, name: &'a str, within: ValueParser<'a>, help: &'a str) -> Arg<'a>
    ensures { rule_of result ≡ line.optional name.now within.entry }
{
    text(alloc, name, "N", help).value_parser(within)
}

/// An option that takes no text.
fn flag<'a>(alloc: Global, name: &'a str, help: &'a str) -> Arg<'a>
    ensures { rule_of result ≡ line.flag name.now }
{
    Arg::new(alloc, name)
        .long(name)
        .action(ArgAction::SetTrue)
        .help(help)
}

/// An option for a number from 1 to `most`.
fn count<'a>(alloc: Global, name: &'a str, default: &'a str, most: u64, help: &'a str) -> Arg<'a>
    ensures { rule_of result ≡ line.count_option name.now default.now most }
{
    number(alloc, name, default, ValueParser::unsigned(1, most), help)
}

/// An option for a number that this parser takes.
fn number<'a>(
    alloc: Global,
    name: &'a str,
    default: &'a str,
    within: ValueParser<'a>,
    help: &'a str,
) -> Arg<'a>
    ensures { rule_of result ≡ line.number name.now default.now within.entry }
{
    text(alloc, name, "N", help)
        .default_value(default)
        .value_parser(within)
}

/// An option for a text of this form.
fn text<'a>(alloc: Global, name: &'a str, form: &'a str, help: &'a str) -> Arg<'a>
    ensures { rule_of result ≡ line.text name.now }
{
    Arg::new(alloc, name).long(name).value_name(form).help(help)
}
