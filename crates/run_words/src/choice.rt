ghost use Rattle.std.specs.Prelude.{◌≡◌, length};
ghost use Rattle.std.specs.Option.{option_map, option_copied};
ghost use Rattle.run_words.specs.Held.{seen_settings};
ghost use Rattle.run_words.specs.Values.{mode_of, format_of, faces_of};
ghost use Rattle.run_words.specs.Choice.{standard, seen, seen_mode, seen_source, seen_destination, seen_output, destination_of, greatest_degree};
ghost use Rattle.run_words.specs.Reading.{reading, run_reading, read_or, read_mode, read_vector, read_plan, read_source, read_subdomain, read_destination, read_output, is_apart, two_texts, two_outputs, is_same_name};

use crate::mode::{ModeName, has_sums, mode_of};
use crate::name::Name;
use crate::settings::Settings;
use crate::switch::Switch;
use crate::values::{faces_of, format_of, name_of, number_or, number_within};
use crate::{
    Destination, Faces, Format, Mode, Options, Output, Plan, Source, Subdomain, SystemMode,
    VectorTask,
};
use fem_fixed::read_id;

/// What the options that stand ask for, where each value is in its set and the rules between options are kept. A batch
/// is no such choice.
#[tactic(auto, unfolding(crate::specs::Reading::reading))]
pub(crate) fn options_of<'a>(settings: &Settings<'a>) -> Option<Options<'a>>
    ensures { option_map seen result ≡ reading (seen_settings settings.now) }
{
    if settings.value(Name::Batch).is_some() {
        return None;
    }
    run_options_of(settings)
}

#[tactic(auto, unfolding(crate::specs::Reading::run_reading))]
fn run_options_of<'a>(settings: &Settings<'a>) -> Option<Options<'a>>
    ensures { option_map seen result ≡ run_reading (seen_settings settings.now) }
{
    let name = mode_or_serial(settings.value(Name::Mode))?;
    let format = format_or_ucd(settings.value(Name::Format))?;
    let source = source_of(
        settings.value(Name::Mesh),
        settings.value(Name::Problem),
        settings.value(Name::Generate),
        settings.value(Name::Seed),
        format,
    )?;
    let mode = mode_for(
        name,
        settings.value(Name::Vector),
        settings.value(Name::Mark),
        source,
    )?;
    let plan = plan_of(settings)?;
    let digits = number_or(0, 0, 64, settings.value(Name::Digits))?;
    let degree = number_or(1, 1, greatest_degree(mode), settings.value(Name::Degree))?;
    let faces = faces_or_none(settings.value(Name::Faces))?;
    let subdomain = subdomain_of(
        settings.value(Name::Subdomain),
        settings.value(Name::Ghost),
        settings.stands(Switch::GhostCells),
    )?;
    let output = output_of(
        settings.value(Name::Matrix),
        settings.value(Name::Rhs),
        settings.stands(Switch::Summary),
        has_sums(name),
    )?;
    Some(Options {
        mode,
        source,
        plan,
        digits,
        degree,
        faces,
        subdomain,
        output,
    })
}

fn mode_or_serial(value: Option<&str>) -> Option<ModeName>
    ensures { result ≡ read_or (ModeName.System SystemMode.Serial) mode_of (option_copied value.entry) }
{
    match value {
        Some(word) => mode_of(word),
        None => Some(ModeName::System(SystemMode::Serial)),
    }
}

// The mode of a name, with its vector and its count of marks. They stand where the mode takes them, and nowhere else.
#[tactic(auto, unfolding(crate::specs::Reading::read_mode))]
fn mode_for<'a>(
    name: ModeName,
    vector: Option<&'a str>,
    mark: Option<&str>,
    source: Source<'_>,
) -> Option<Mode<'a>>
    ensures { option_map seen_mode result ≡ read_mode name (option_copied vector.entry) (option_copied mark.entry) (seen_source source.entry) }
{
    match (name, vector, mark) {
        (ModeName::System(mode), None, None) => Some(Mode::System(mode)),
        (ModeName::Mesh, None, None) => Some(Mode::Mesh),
        (ModeName::Product, Some(vector), None) => {
            let name = vector_of(vector, source)?;
            let task = VectorTask::Product;
            Some(Mode::Vector { name, task })
        }
        (ModeName::Marks, Some(vector), mark) => {
            let name = vector_of(vector, source)?;
            let task = VectorTask::Marks(number_or(1, 1, 1_048_576, mark)?);
            Some(Mode::Vector { name, task })
        }
        (ModeName::Adapt, Some(vector), mark) => {
            let name = vector_of(vector, source)?;
            let task = VectorTask::Adapt(number_or(1, 1, 1_048_576, mark)?);
            Some(Mode::Vector { name, task })
        }
        _ => None,
    }
}

// The greatest degree of a mode. Jumps, by which cells are marked, are those of degree 1.
fn greatest_degree(mode: Mode) -> u32
    ensures { result ≡ greatest_degree (seen_mode mode.entry) }
{
    match mode {
        Mode::System(_) | Mode::Mesh => 2,
        Mode::Vector { name: _, task } => match task {
            VectorTask::Product => 2,
            VectorTask::Marks(_) | VectorTask::Adapt(_) => 1,
        },
    }
}

// The name of a vector beside texts of which none is standard input, where the vector is.
fn vector_of<'a>(word: &'a str, source: Source<'_>) -> Option<&'a str>
    ensures { option_copied result ≡ read_vector word.now (seen_source source.entry) }
{
    let name = name_of(word)?;
    if is_apart(name, source) {
        Some(name)
    } else {
        None
    }
}

// What is generated takes no vector.
fn is_apart(name: &str, source: Source<'_>) -> bool
    ensures { result ≡ is_apart name.now (seen_source source.entry) }
{
    match source {
        Source::Texts {
            mesh,
            format: _,
            problem,
        } => !(name == "-" && (mesh == "-" || problem == Some("-"))),
        Source::Generated { n: _, seed: _ } => false,
    }
}

fn format_or_ucd(value: Option<&str>) -> Option<Format>
    ensures { result ≡ read_or Format.Ucd format_of (option_copied value.entry) }
{
    match value {
        Some(word) => format_of(word),
        None => Some(Format::Ucd),
    }
}

fn faces_or_none(value: Option<&str>) -> Option<Faces>
    ensures { result ≡ read_or Faces.None faces_of (option_copied value.entry) }
{
    match value {
        Some(word) => faces_of(word),
        None => Some(Faces::None),
    }
}

#[tactic(auto, unfolding(crate::specs::Reading::read_plan))]
fn plan_of(settings: &Settings) -> Option<Plan>
    ensures { result ≡ read_plan (seen_settings settings.now) }
{
    let workers = number_or(4, 1, 64, settings.value(Name::Workers))?;
    let queue = number_or(2 * workers, 1, 256, settings.value(Name::Queue))?;
    let chunk = number_or(8, 1, 64, settings.value(Name::Chunk))?;
    let scratch = number_or(workers, 1, 64, settings.value(Name::Scratch))?;
    Some(Plan {
        workers,
        queue,
        chunk,
        scratch,
    })
}

#[tactic(auto, unfolding(crate::specs::Reading::read_source))]
fn source_of<'a>(
    mesh: Option<&'a str>,
    problem: Option<&'a str>,
    generate: Option<&str>,
    seed: Option<&str>,
    format: Format,
) -> Option<Source<'a>>
    ensures { option_map seen_source result ≡ read_source (option_copied mesh.entry) (option_copied problem.entry) (option_copied generate.entry) (option_copied seed.entry) format }
{
    match (mesh, problem, generate, seed, format) {
        (Some(mesh), None, None, None, format) => {
            let mesh = name_of(mesh)?;
            Some(Source::Texts {
                mesh,
                format,
                problem: None,
            })
        }
        (Some(mesh), Some(problem), None, None, format) => {
            let mesh = name_of(mesh)?;
            let problem = name_of(problem)?;
            two_texts(mesh, format, problem)
        }
        (None, None, Some(cells), seed, Format::Ucd) => {
            let n = number_within(cells, 1, 512)?;
            let seed = match seed {
                Some(word) => number_within(word, 0, u64::MAX)?,
                None => 0,
            };
            Some(Source::Generated { n: n as u32, seed })
        }
        _ => None,
    }
}

// A mesh and a problem, where not both are standard input.
fn two_texts<'a>(mesh: &'a str, format: Format, problem: &'a str) -> Option<Source<'a>>
    ensures { option_map seen_source result ≡ two_texts mesh.now format problem.now }
{
    if mesh == "-" && problem == "-" {
        return None;
    }
    Some(Source::Texts {
        mesh,
        format,
        problem: Some(problem),
    })
}

#[tactic(auto, unfolding(crate::specs::Reading::read_subdomain))]
fn subdomain_of(
    subdomain: Option<&str>,
    ghost_parts: Option<&str>,
    ghost_cells: bool,
) -> Option<Option<Subdomain>>
    ensures { result ≡ read_subdomain (option_copied subdomain.entry) (option_copied ghost_parts.entry) ghost_cells }
{
    match (subdomain, ghost_parts, ghost_cells) {
        (None, None, false) => Some(None),
        (Some(word), ghost_parts, ghost_cells) => {
            let id = read_id(word.as_bytes())?;
            let ghost_parts = faces_or_none(ghost_parts)?;
            Some(Some(Subdomain {
                id,
                ghost_parts,
                ghost_cells,
            }))
        }
        _ => None,
    }
}

#[tactic(auto, unfolding(crate::specs::Reading::read_output))]
fn output_of<'a>(
    matrix: Option<&'a str>,
    rhs: Option<&'a str>,
    wants_summary: bool,
    has_sums: bool,
) -> Option<Output<'a>>
    ensures { option_map seen_output result ≡ read_output (option_copied matrix.entry) (option_copied rhs.entry) wants_summary has_sums }
{
    match (matrix, rhs, wants_summary) {
        (None, None, true) if has_sums => Some(Output::Summary),
        (matrix, None, false) => {
            let matrix = destination_or_standard(matrix)?;
            Some(Output::Texts {
                matrix,
                right_side: None,
            })
        }
        (matrix, Some(rhs), false) if has_sums => {
            let matrix = destination_or_standard(matrix)?;
            let rhs = destination_of(rhs)?;
            two_outputs(matrix, rhs)
        }
        _ => None,
    }
}

// A matrix and a right side, where they don't have one name.
fn two_outputs<'a>(matrix: Destination<'a>, rhs: Destination<'a>) -> Option<Output<'a>>
    ensures { option_map seen_output result ≡ two_outputs (seen_destination matrix.entry) (seen_destination rhs.entry) }
{
    if is_same_name(matrix, rhs) {
        return None;
    }
    Some(Output::Texts {
        matrix,
        right_side: Some(rhs),
    })
}

fn is_same_name(matrix: Destination, rhs: Destination) -> bool
    ensures { result ≡ is_same_name (seen_destination matrix.entry) (seen_destination rhs.entry) }
{
    match (matrix, rhs) {
        (Destination::Named(name), Destination::Named(other)) => name == other,
        _ => false,
    }
}

pub(crate) fn destination_or_standard(value: Option<&str>) -> Option<Destination<'_>>
    ensures { option_map seen_destination result ≡ read_or standard read_destination (option_copied value.entry) }
{
    match value {
        Some(word) => destination_of(word),
        None => Some(Destination::Standard),
    }
}

fn destination_of(word: &str) -> Option<Destination<'_>>
    ensures { option_map seen_destination result ≡ read_destination word.now }
{
    let name = name_of(word)?;
    if name == "-" {
        Some(Destination::Standard)
    } else {
        Some(Destination::Named(name))
    }
}
