//! Trees with the places of their statements.

ghost use Rattle.std.specs.Prelude.{◌≤◌, ◌^◌, length, IfOk, IfErr};
ghost use Rattle.gr_base.specs.Prelude.{IfFault};
ghost use Rattle.src_tree.specs.Prelude.{Source};
ghost use Rattle.src_parser.specs.Prelude.{limits, Sentence, HasTokens, ExplainsText, token_kinds};
ghost use Rattle.procs_tree.specs.Prelude.{File};
ghost use Rattle.procs_parser.specs.FileGrammar.{SpellsFile};
ghost use Rattle.source_map.specs.Maps.{IsMapOf};
ghost use Rattle.source_map.specs.Places.{StatementPlaces};
ghost use Rattle.procs_parser.specs.FileText.{ExplainsFileText};
ghost use Rattle.source_map.specs.PlacedFiles.{FilePlaces, IsPlacedFile};
ghost use Rattle.source_map.specs.PlacedPrograms.{IsPlaced};

use crate::mapping::Mapper;
use crate::maps::SourceMap;
use gr_base::{Fail, Memory};
use procs_parser::FileReader;
use procs_tree::ProcFile;
use src_lexer::Token;
use src_parser::{ParseFault, ProgramReader, TextFault, TokenReader, read_text};
use src_tree::Program;
use std::alloc::Global;

/// A tree, and the places of its statements.
#[derive(Drop)]
pub struct Placed<T> {
    pub tree: T,
    pub map: SourceMap,
}

/// Passes tokens to another reader, and finds the places of statements beside it.
#[derive(Drop)]
pub struct PlacedReader<R> {
    reader: R,
    mapper: Mapper,
}

impl<R: TokenReader> TokenReader for PlacedReader<R> {
    ghost use Rattle.src_parser.specs.Refusals.{token_kinds};
    ghost use Rattle.source_map.specs.Maps.{IsMapOf, HasMapped};

    type Tree = Placed<R::Tree>;

    ghost IsTree = { λ tokens placed. R.IsTree tokens placed.tree × IsMapOf (token_kinds tokens) placed.map };

    ghost Explains = { R.Explains };

    ghost HasRead = { λ tokens placed. R.HasRead tokens placed.reader × HasMapped (token_kinds tokens) placed.mapper };

    fn new(alloc: Global) -> PlacedReader<R> {
        PlacedReader {
            reader: R::new(alloc),
            mapper: Mapper::new(alloc),
        }
    }

    fn read(&mut self, alloc: Global, tokens: &[Token]) -> Result<(), Fail<ParseFault>> {
        self.reader.read(alloc, tokens)?;
        self.mapper.read(tokens)?;
        Ok(())
    }

    fn finish(self, alloc: Global) -> Result<Placed<R::Tree>, Fail<ParseFault>> {
        let PlacedReader { reader, mapper } = self;
        let map = mapper.map();
        match reader.finish(alloc) {
            Ok(tree) => Ok(Placed { tree, map }),
            Err(fail) => Err(fail),
        }
    }
}

// The places of the statements of tokens.
fn mapped(alloc: Global, tokens: &[Token]) -> Result<SourceMap, Memory>
    ensures { IfOk result (λ map. IsMapOf (token_kinds tokens.now) map) }
{
    let mut mapper = Mapper::new(alloc);
    mapper.read(tokens)?;
    Ok(mapper.map())
}

/// The places of the statements of tokens that are a program, or a file with procedures.
pub fn map_of(alloc: Global, tokens: &[Token]) -> Result<SourceMap, Memory>
    ensures programs { IfOk result (λ map. (source : Source) → Sentence limits (token_kinds tokens.now) source
        → StatementPlaces (token_kinds tokens.now) source.body map.starts.items map.ends.items) }
    ensures files { IfOk result (λ map. (file : File) → SpellsFile limits (token_kinds tokens.now) file
        → FilePlaces (token_kinds tokens.now) file map.starts.items map.ends.items) }
{
    mapped(alloc, tokens)
}

/// The program of a text of at most 1,048,576 bytes with the places of its statements, or the text's first fault.
pub fn read_placed(alloc: Global, text: &[u8]) -> Result<Placed<Program>, Fail<TextFault>>
    requires { length text.now ≤ 2 ^ 20 }
    ensures placed { IfOk result (λ placed. HasTokens
        (λ tokens. IsPlaced (token_kinds tokens) placed.tree placed.map) text.now) }
    ensures refused { IfErr result (IfFault (λ fault. ExplainsText fault text.now)) }
{
    read_text::<PlacedReader<ProgramReader>>(alloc, text)
}

/// The file with procedures of a text of at most 1,048,576 bytes with the places of its statements, or the text's first
/// fault. The statements of procedures come first, and a call is one statement.
pub fn read_placed_file(alloc: Global, text: &[u8]) -> Result<Placed<ProcFile>, Fail<TextFault>>
    requires { length text.now ≤ 2 ^ 20 }
    ensures placed { IfOk result (λ placed. HasTokens
        (λ tokens. IsPlacedFile (token_kinds tokens) placed.tree placed.map) text.now) }
    ensures refused { IfErr result (IfFault (λ fault. ExplainsFileText fault text.now)) }
{
    read_text::<PlacedReader<FileReader>>(alloc, text)
}
