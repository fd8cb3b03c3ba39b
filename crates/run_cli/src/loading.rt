ghost use Rattle.std.specs.Prelude.{◌≡◌, ◌≤◌, [], ◌∷◌, ◌++◌, IfOk, IfErr, length};
ghost use Rattle.tp_world.specs.Loads.{AreLoaded};
ghost use Rattle.run_cli.specs.Sources.{IsScaled, AreTextsOf, source_files, texts_of, HoldsProblem, IsSourceStop};
ghost use Rattle.run_cli.specs.declared.loading.Role.TheVariants as roles;
ghost use Rattle.run_cli.specs.Stopping.{IsStop, role_name, most_bytes, file_of, failed_line, too_long_line};

use crate::answer::Answer;
use crate::reader::read_source;
use crate::words::Source;
use line_text::{push_bytes, push_number};
use std::alloc::Global;
use tp_spec::{NoMemory, Problem};
use tp_world::{Files, LoadFault};

/// What a file is to a command.
#[derive(Clone, Copy, Debug, PartialEq, Eq)]
pub enum Role {
    Domain,
    Problem,
    GroundText,
    Script,
    PlanFile,
    Trace,
}

/// What is loaded of the files of a source: the text of a ground problem, or those of a domain and
/// a problem with their scale.
#[derive(Drop)]
pub enum SourceTexts {
    GroundText {
        text: Vec<u8>,
    },
    Pddl {
        domain: Vec<u8>,
        problem: Vec<u8>,
        scale: u32,
    },
}

/// Why a command ends before its work: it says why, or memory was refused.
#[derive(Drop)]
pub enum Stop {
    Said { answer: Answer },
    NoMemory,
}

impl From<NoMemory> for Stop {
    ghost use Rattle.std.specs.Prelude.{◌≡◌};
    ghost use Rattle.run_cli.specs.declared.loading.Stop.TheVariants.{NoMemory as out_of_memory};

    ghost from_gives = { λ _ stop. stop ≡ out_of_memory };

    fn from(_fault: NoMemory) -> Stop {
        Stop::NoMemory
    }
}

/// The name of a role in printed lines.
fn role_name(role: Role) -> &'static [u8]
    ensures { result.now ≡ role_name role }
{
    match role {
        Role::Domain => b"domain",
        Role::Problem => b"problem",
        Role::GroundText => b"ground",
        Role::Script => b"script",
        Role::PlanFile => b"plan",
        Role::Trace => b"trace",
    }
}

/// The most bytes of a file of a role.
fn most_bytes(role: Role) -> u64
    ensures { result ≡ most_bytes role }
{
    match role {
        Role::Trace => 67_108_864,
        _ => 1_048_576,
    }
}

/// The line for a file whose load failed.
fn failed_line(alloc: Global, role: Role) -> Result<Vec<u8>, NoMemory>
    ensures { IfOk result (λ t. t.items ≡ failed_line (file_of role [])) }
{
    let mut text = Vec::new(alloc);
    push_bytes(&mut text, b"fault ")?;
    push_bytes(&mut text, role_name(role))?;
    push_bytes(&mut text, b"\n")?;
    Ok(text)
}

/// The line for a file that is too long.
fn too_long_line(alloc: Global, role: Role) -> Result<Vec<u8>, NoMemory>
    ensures { IfOk result (λ t. t.items ≡ too_long_line (file_of role [])) }
{
    let mut text = Vec::new(alloc);
    push_bytes(&mut text, b"refused ")?;
    push_bytes(&mut text, role_name(role))?;
    push_bytes(&mut text, b" ")?;
    push_number(&mut text, most_bytes(role))?;
    push_bytes(&mut text, b" FileTooLong\n")?;
    Ok(text)
}

/// Loads a file.
fn load<F: Files>(alloc: Global, role: Role, name: &str, files: &mut F) -> Result<Vec<u8>, Stop>
    ensures loaded { IfOk result (λ text. AreLoaded (file_of role name.now ∷ []) (text.items ∷ [])
        (F.view files.old) (F.view files.new)) }
    ensures stop { IfErr result (IsStop (file_of role name.now ∷ []) (F.view files.old)
        (F.view files.new)) }
    ensures short { IfOk result (λ text. length text.items ≤ most_bytes role) }
    ensures contents { (F.view files.new).contents ≡ (F.view files.old).contents }
{
    match files.load(alloc, name, most_bytes(role)) {
        Ok(text) => Ok(text),
        Err(LoadFault::Failed) => Err(Stop::Said {
            answer: Answer {
                status: 5,
                line: failed_line(alloc, role)?,
            },
        }),
        Err(LoadFault::TooLong) => Err(Stop::Said {
            answer: Answer {
                status: 4,
                line: too_long_line(alloc, role)?,
            },
        }),
        Err(LoadFault::NoMemory) => Err(Stop::NoMemory),
    }
}

/// Loads a domain, and then a problem.
fn load_pair<F: Files>(
    alloc: Global,
    domain: &str,
    problem: &str,
    files: &mut F,
) -> Result<(Vec<u8>, Vec<u8>), Stop>
    ensures loaded { IfOk result (λ texts. AreLoaded
        (file_of roles.Domain domain.now ∷ file_of roles.Problem problem.now ∷ [])
        (texts.0.items ∷ texts.1.items ∷ []) (F.view files.old) (F.view files.new)) }
    ensures stop { IfErr result (IsStop
        (file_of roles.Domain domain.now ∷ file_of roles.Problem problem.now ∷ [])
        (F.view files.old) (F.view files.new)) }
    ensures first { IfOk result (λ texts. length texts.0.items ≤ 1048576) }
    ensures second { IfOk result (λ texts. length texts.1.items ≤ 1048576) }
    ensures contents { (F.view files.new).contents ≡ (F.view files.old).contents }
{
    let first = load(alloc, Role::Domain, domain, files)?;
    let second = load(alloc, Role::Problem, problem, files)?;
    Ok((first, second))
}

/// Loads the files of a source, in their order.
fn load_source<F: Files>(alloc: Global, source: &Source, files: &mut F) -> Result<SourceTexts, Stop>
    ensures loaded { IfOk result (λ texts. AreLoaded (source_files source.now) (texts_of texts)
        (F.view files.old) (F.view files.new)) }
    ensures texts { IfOk result (AreTextsOf source.now) }
    ensures stop { IfErr result (IsStop (source_files source.now) (F.view files.old)
        (F.view files.new)) }
    ensures contents { (F.view files.new).contents ≡ (F.view files.old).contents }
{
    match source {
        Source::GroundText { name } => {
            let text = load(alloc, Role::GroundText, name.as_str(), files)?;
            Ok(SourceTexts::GroundText { text })
        }
        Source::Pddl {
            domain,
            problem,
            scale,
        } => {
            let scale = *scale;
            let (domain, problem) = load_pair(alloc, domain.as_str(), problem.as_str(), files)?;
            Ok(SourceTexts::Pddl {
                domain,
                problem,
                scale,
            })
        }
    }
}

/// Loads the files of a source, each of at most 1,048,576 bytes, and then reads them: the problem
/// that they are of.
pub fn load_problem<F: Files>(
    alloc: Global,
    source: &Source,
    files: &mut F,
) -> Result<Problem, Stop>
    requires { IsScaled source.now }
    ensures holds { IfOk result (λ p. HoldsProblem source.now [] p [] (F.view files.old)
        (F.view files.new)) }
    ensures stop { IfErr result (IsSourceStop source.now [] (F.view files.old)
        (F.view files.new)) }
    ensures contents { (F.view files.new).contents ≡ (F.view files.old).contents }
{
    let texts = load_source(alloc, source, files)?;
    read_source(alloc, source, &texts)
}

/// Loads the files of a source and a further file, each of at most as many bytes as its role
/// allows, and then reads those of the source: the problem that they are of, with the bytes of the
/// further file.
pub fn load_problem_and<F: Files>(
    alloc: Global,
    source: &Source,
    role: Role,
    name: &str,
    files: &mut F,
) -> Result<(Problem, Vec<u8>), Stop>
    requires { IsScaled source.now }
    ensures holds { IfOk result (λ read. HoldsProblem source.now (file_of role name.now ∷ [])
        read.0 (read.1.items ∷ []) (F.view files.old) (F.view files.new)) }
    ensures short { IfOk result (λ read. length read.1.items ≤ most_bytes role) }
    ensures stop { IfErr result (IsSourceStop source.now (file_of role name.now ∷ [])
        (F.view files.old) (F.view files.new)) }
    ensures contents { (F.view files.new).contents ≡ (F.view files.old).contents }
{
    let texts = load_source(alloc, source, files)?;
    let bytes = load(alloc, role, name, files)?;
    let problem = read_source(alloc, source, &texts)?;
    Ok((problem, bytes))
}
