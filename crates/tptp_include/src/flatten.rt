//! A file is made flat.
//!
//! Files are read whole, and their lines followed in order, depth first.
ghost use Rattle.std.specs.Prelude.{◌≡◌, ◌≤◌, ◌<◌, ◌-◌, ℕ, suc, List, [], ◌∷◌, ◌++◌, length, map, Some, None, IfOk, IfErr, OnOk, IsErrOf};
ghost use Rattle.me_io.specs.Source.{Rose};
ghost use Rattle.me_io.specs.declared.source.TheConstants.{MAX_BYTES};
ghost use Rattle.tptp_lines.specs.Lines.{AreLines, Include};
ghost use Rattle.tptp_lines.specs.LineViews.{line_value, picks_value};
ghost use Rattle.tptp_include.specs.Files.{FileValue, bytes_named};
ghost use Rattle.tptp_include.specs.Flat.{FlatValue, text_of, between};
ghost use Rattle.tptp_include.specs.Outcomes as outcome;
ghost use Rattle.tptp_include.specs.Views.{names_of, TellsStop, IsFileStop, IsUnnamedStop, IsStopOf};
ghost use Rattle.tptp_include.specs.declared.limits.TheConstants.{MAX_CHAIN};

use crate::error::{FindError, FlatError, FlatLimit};
use crate::flat::{Flat, FlatFormula};
use crate::library::Library;
use crate::limits::{MAX_CHAIN, MAX_INCLUDES};
use crate::names::{Names, again, contains, longer};
use me_terms::{Again, Label, Text};
use std::alloc::{AllocError, Global};
use tptp_cnf::CnfError;
use tptp_lines::{Labels, Line, Lines, read_lines};

/// The bytes from one place up to another, as far as there are so many.
fn slice(bytes: &[u8], from: u64, to: u64) -> &[u8]
    ensures { result.now ≡ between bytes.now from to }
{
    let from = (from as usize).min(bytes.len());
    let behind = &bytes[from..];
    let count = (to as usize).saturating_sub(from).min(behind.len());
    &behind[..count]
}

/// The formula of this label between these places.
fn formula(
    alloc: Global,
    bytes: &Text,
    label: &Label,
    from: u64,
    to: u64,
) -> Result<FlatFormula, AllocError>
    ensures { IfOk result (λ f. f ≡ record { label = label.now; bytes = between bytes.now.items from to }) }
{
    Ok(FlatFormula {
        label: label.again(alloc)?,
        text: Text::from_slice(slice(bytes.as_slice(), from, to), alloc)?,
    })
}

/// The bytes of the file at the end of the chain.
fn found<L: Library>(
    alloc: Global,
    library: &mut L,
    chain: &Names,
    name: &Text,
) -> Result<Text, FlatError>
    ensures found { (files : List FileValue) → L.held library.old ≡ Some files → IfOk result (λ bytes. bytes_named files name.now.items ≡ Some bytes.items) }
    ensures size { IfOk result (λ bytes. length bytes.items ≤ MAX_BYTES) }
    ensures missing { (files : List FileValue) → L.held library.old ≡ Some files → IfErr result (TellsStop (λ why. (bytes_named files name.now.items ≡ None) × (why ≡ outcome.Missing (names_of chain.now)))) }
    ensures same { L.held library.new ≡ L.held library.old }
    ensures later { L.faults library.old ≤ L.faults library.new }
    ensures fault { IsErrOf result FlatError.Fault → Rose (L.faults library.old) (L.faults library.new) }
{
    match library.find(alloc, name) {
        Ok(Some(bytes)) => Ok(bytes),
        Ok(None) => Err(FlatError::Missing {
            chain: again(alloc, chain)?,
        }),
        Err(FindError::Failed) => Err(FlatError::Fault),
        Err(FindError::Memory) => Err(FlatError::Memory),
    }
}

/// The lines of the file of this name.
fn read_file(alloc: Global, name: &Text, bytes: &Text) -> Result<Lines, FlatError>
    requires { length bytes.now.items ≤ MAX_BYTES }
    ensures lines { IfOk result (λ lines. AreLines bytes.now.items (map line_value lines.items)) }
    ensures refused { IfErr result (TellsStop (IsFileStop name.now.items bytes.now.items)) }
    ensures fault { ¬ IsErrOf result FlatError.Fault }
{
    match read_lines(alloc, bytes.as_slice()) {
        Ok(lines) => Ok(lines),
        Err(CnfError::Memory) => Err(FlatError::Memory),
        Err(error) => Err(FlatError::File {
            name: name.again(alloc)?,
            error,
        }),
    }
}

/// Follows an include: the chain with the file at its end. Counts it.
fn followed(
    alloc: Global,
    chain: &Names,
    file: &Text,
    includes: &mut u32,
) -> Result<Names, FlatError>
    ensures ok { OnOk result (outcome.unfollowed (names_of chain.now) includes.old file.now.items ≡ None) }
    ensures chain { IfOk result (λ longer. names_of longer ≡ names_of chain.now ++ file.now.items ∷ []) }
    ensures room { OnOk result (length (names_of chain.now) < MAX_CHAIN) }
    ensures count { OnOk result (includes.new ≡ suc includes.old) }
    ensures stops { IfErr result (TellsStop (λ why. outcome.unfollowed (names_of chain.now) includes.old file.now.items ≡ Some why)) }
    ensures fault { ¬ IsErrOf result FlatError.Fault }
{
    if *includes >= MAX_INCLUDES {
        return Err(FlatError::Limit {
            which: FlatLimit::Includes,
        });
    }
    *includes += 1;
    if contains(chain, file) {
        return Err(FlatError::Cycle {
            chain: longer(alloc, chain, file)?,
        });
    }
    if chain.len() >= u64::from(MAX_CHAIN) {
        return Err(FlatError::Limit {
            which: FlatLimit::Chain,
        });
    }
    Ok(longer(alloc, chain, file)?)
}

/// Whether each label that is picked of a file is that of a formula.
fn check_picks(
    alloc: Global,
    file: &Text,
    picks: &Option<Labels>,
    whole: &Flat,
) -> Result<(), FlatError>
    ensures ok { OnOk result (outcome.unnamed_in (picks_value picks.now) whole.now ≡ None) }
    ensures stops { IfErr result (TellsStop (IsUnnamedStop file.now.items (picks_value picks.now) whole.now)) }
    ensures fault { ¬ IsErrOf result FlatError.Fault }
{
    match whole.unnamed(picks) {
        Some(label) => Err(FlatError::Unnamed {
            file: file.again(alloc)?,
            label: label.again(alloc)?,
        }),
        None => Ok(()),
    }
}

/// Adds what is picked of an included file.
#[cycle(flat)]
fn add_include<L: Library>(
    alloc: Global,
    library: &mut L,
    chain: &Names,
    file: &Text,
    picks: &Option<Labels>,
    includes: &mut u32,
    flat: &mut Flat,
) -> Result<(), FlatError>
    requires { length (names_of chain.now) ≤ MAX_CHAIN }
    ensures goes { (files : List FileValue) → L.held library.old ≡ Some files → OnOk result (outcome.LineGives (outcome.FileGives (MAX_CHAIN - length (names_of chain.now)) files) (names_of chain.now) [] (Include file.now.items (picks_value picks.now)) flat.old includes.old (outcome.Flat flat.new) includes.new) }
    ensures stops { (files : List FileValue) → L.held library.old ≡ Some files → IfErr result (TellsStop (λ why. (n : ℕ) × outcome.LineGives (outcome.FileGives (MAX_CHAIN - length (names_of chain.now)) files) (names_of chain.now) [] (Include file.now.items (picks_value picks.now)) flat.old includes.old (outcome.Stops why) n)) }
    ensures same { L.held library.new ≡ L.held library.old }
    ensures later { L.faults library.old ≤ L.faults library.new }
    ensures fault { IsErrOf result FlatError.Fault → Rose (L.faults library.old) (L.faults library.new) }
{
    let longer = followed(alloc, chain, file, includes)?;
    let whole = flat_file(alloc, library, &longer, file, includes)?;
    check_picks(alloc, file, picks, &whole)?;
    flat.add_picked(whole, picks)
}

/// Adds what a line gives.
#[cycle(flat)]
fn add_line<L: Library>(
    alloc: Global,
    library: &mut L,
    chain: &Names,
    bytes: &Text,
    line: &Line,
    includes: &mut u32,
    flat: &mut Flat,
) -> Result<(), FlatError>
    requires { length (names_of chain.now) ≤ MAX_CHAIN }
    ensures goes { (files : List FileValue) → L.held library.old ≡ Some files → OnOk result (outcome.LineGives (outcome.FileGives (MAX_CHAIN - length (names_of chain.now)) files) (names_of chain.now) bytes.now.items (line_value line.now) flat.old includes.old (outcome.Flat flat.new) includes.new) }
    ensures stops { (files : List FileValue) → L.held library.old ≡ Some files → IfErr result (TellsStop (λ why. (n : ℕ) × outcome.LineGives (outcome.FileGives (MAX_CHAIN - length (names_of chain.now)) files) (names_of chain.now) bytes.now.items (line_value line.now) flat.old includes.old (outcome.Stops why) n)) }
    ensures same { L.held library.new ≡ L.held library.old }
    ensures later { L.faults library.old ≤ L.faults library.new }
    ensures fault { IsErrOf result FlatError.Fault → Rose (L.faults library.old) (L.faults library.new) }
{
    match line {
        Line::Formula { label, from, to } => flat.add(formula(alloc, bytes, label, *from, *to)?),
        Line::Include { file, picks } => add_include(
            alloc, library, chain, file, picks, includes, flat,
        ),
    }
}

/// What the lines give.
#[cycle(flat)]
fn flat_lines<L: Library>(
    alloc: Global,
    library: &mut L,
    chain: &Names,
    bytes: &Text,
    lines: &Lines,
    includes: &mut u32,
) -> Result<Flat, FlatError>
    requires { length (names_of chain.now) ≤ MAX_CHAIN }
    ensures goes { (files : List FileValue) → L.held library.old ≡ Some files → IfOk result (λ flat. outcome.LinesGive (outcome.FileGives (MAX_CHAIN - length (names_of chain.now)) files) (names_of chain.now) bytes.now.items (map line_value lines.now.items) [] includes.old (outcome.Flat flat) includes.new) }
    ensures stops { (files : List FileValue) → L.held library.old ≡ Some files → IfErr result (TellsStop (λ why. (n : ℕ) × outcome.LinesGive (outcome.FileGives (MAX_CHAIN - length (names_of chain.now)) files) (names_of chain.now) bytes.now.items (map line_value lines.now.items) [] includes.old (outcome.Stops why) n)) }
    ensures same { L.held library.new ≡ L.held library.old }
    ensures later { L.faults library.old ≤ L.faults library.new }
    ensures fault { IsErrOf result FlatError.Fault → Rose (L.faults library.old) (L.faults library.new) }
{
    let mut flat = Flat::new(alloc);
    'lines: for line in lines.as_slice() {
        add_line(alloc, library, chain, bytes, line, includes, &mut flat)?;
    }
    Ok(flat)
}

/// What the file of this name gives, which stands at the end of the chain.
#[cycle(flat)]
fn flat_file<L: Library>(
    alloc: Global,
    library: &mut L,
    chain: &Names,
    name: &Text,
    includes: &mut u32,
) -> Result<Flat, FlatError>
    requires { length (names_of chain.now) ≤ MAX_CHAIN }
    ensures goes { (files : List FileValue) → L.held library.old ≡ Some files → IfOk result (λ flat. outcome.FileGives (suc (MAX_CHAIN - length (names_of chain.now))) files (names_of chain.now) name.now.items includes.old (outcome.Flat flat) includes.new) }
    ensures stops { (files : List FileValue) → L.held library.old ≡ Some files → IfErr result (TellsStop (λ why. (n : ℕ) × outcome.FileGives (suc (MAX_CHAIN - length (names_of chain.now))) files (names_of chain.now) name.now.items includes.old (outcome.Stops why) n)) }
    ensures same { L.held library.new ≡ L.held library.old }
    ensures later { L.faults library.old ≤ L.faults library.new }
    ensures fault { IsErrOf result FlatError.Fault → Rose (L.faults library.old) (L.faults library.new) }
{
    let bytes = found(alloc, library, chain, name)?;
    let lines = read_file(alloc, name, &bytes)?;
    flat_lines(alloc, library, chain, &bytes, &lines, includes)
}

/// The text of the main file once it is flat: each of its formulas and a line feed. Each refusal but a fault and want
/// of memory is the first cause, in the order in which lines are followed.
pub fn flatten_file<L: Library>(
    alloc: Global,
    library: &mut L,
    main: &Text,
) -> Result<Vec<u8>, FlatError>
    ensures text { (files : List FileValue) → L.held library.old ≡ Some files → IfOk result (λ text. (flat : List FlatValue) × outcome.IsOutcome files main.now.items (outcome.Flat flat) × (text.items ≡ text_of flat)) }
    ensures stops { (files : List FileValue) → L.held library.old ≡ Some files → IfErr result (IsStopOf files main.now.items) }
    ensures same { L.held library.new ≡ L.held library.old }
    ensures later { L.faults library.old ≤ L.faults library.new }
    ensures fault { IsErrOf result FlatError.Fault → Rose (L.faults library.old) (L.faults library.new) }
{
    let chain = longer(alloc, &Names::new(alloc), main)?;
    let mut includes = 0;
    let flat = flat_file(alloc, library, &chain, main, &mut includes)?;
    Ok(flat.text(alloc)?)
}
