//! Modules and what they list: types, imports, functions, tables, memories, globals, exports, segments (standard, section 2.5).

use crate::drops::drop_body;
use crate::instrs::Instr;
use crate::names::Name;
use crate::values::ValType;

/// A function type (standard, section 2.3.3).
#[derive(Drop)]
pub struct FuncType {
    pub params: Vec<ValType>,
    pub results: Vec<ValType>,
}

/// So many locals of one type, one behind another (standard, section 5.5.13).
#[derive(Clone, Copy)]
pub struct Run {
    pub count: u32,
    pub ty: ValType,
}

/// A defined function (standard, section 2.5.3): the index of its type, its declared locals in runs, its
/// body without the end.
pub struct Func {
    pub sort: u32,
    pub locals: Vec<Run>,
    pub body: Vec<Instr>,
}

impl Drop for Func {
    fn drop(self) {
        let Func {
            sort: _,
            locals: _,
            body,
        } = self;
        drop_body(body);
    }
}

/// The limits of a table in entries, or of a memory in pages of 65,536 bytes (standard, section 2.3.4).
#[derive(Clone, Copy)]
pub struct Limits {
    pub min: u32,
    pub max: Option<u32>,
}

/// A defined global (standard, section 2.5.6); `init` is its initialiser without the end.
pub struct GlobalDef {
    pub ty: ValType,
    pub mutable: bool,
    pub init: Vec<Instr>,
}

impl Drop for GlobalDef {
    fn drop(self) {
        let GlobalDef {
            ty: _,
            mutable: _,
            init,
        } = self;
        drop_body(init);
    }
}

/// What is imported (standard, section 2.5.11): a function by the index of its type, a table, a memory, or
/// a global by its type and whether it is mutable.
#[derive(Clone, Copy)]
pub enum ImportKind {
    Func(u32),
    Table(Limits),
    Memory(Limits),
    Global(ValType, bool),
}

/// An import under its two names (standard, section 2.5.11).
#[derive(Drop)]
pub struct Import {
    pub module: Name,
    pub base: Name,
    pub kind: ImportKind,
}

/// The index space of an export (standard, section 2.5.1).
#[derive(Clone, Copy, Debug)]
pub enum Space {
    Func,
    Table,
    Memory,
    Global,
}

/// An export (standard, section 2.5.10).
#[derive(Drop)]
pub struct Export {
    pub name: Name,
    pub space: Space,
    pub index: u32,
}

/// An element segment (standard, section 2.5.7); `offset` is an expression without its end.
pub struct Elem {
    pub table: u32,
    pub offset: Vec<Instr>,
    pub funcs: Vec<u32>,
}

impl Drop for Elem {
    fn drop(self) {
        let Elem {
            table: _,
            offset,
            funcs: _,
        } = self;
        drop_body(offset);
    }
}

/// A data segment (standard, section 2.5.8); `offset` is an expression without its end.
pub struct Segment {
    pub memory: u32,
    pub offset: Vec<Instr>,
    pub bytes: Vec<u8>,
}

impl Drop for Segment {
    fn drop(self) {
        let Segment {
            memory: _,
            offset,
            bytes: _,
        } = self;
        drop_body(offset);
    }
}

/// A custom section (standard, section 5.5.3). It stands behind all known sections of an id up to `after`;
/// 0 is before all of them.
#[derive(Drop)]
pub struct Custom {
    pub after: u8,
    pub name: Name,
    pub bytes: Vec<u8>,
}

/// A module (standard, section 2.5). Its lists are in index order, imports before what is defined.
pub struct Module {
    pub types: Vec<FuncType>,
    pub imports: Vec<Import>,
    pub funcs: Vec<Func>,
    pub tables: Vec<Limits>,
    pub memories: Vec<Limits>,
    pub globals: Vec<GlobalDef>,
    pub exports: Vec<Export>,
    pub start: Option<u32>,
    pub elems: Vec<Elem>,
    pub segments: Vec<Segment>,
    pub customs: Vec<Custom>,
}

// Written out and not derived: who holds a module then calls it, and nothing of what a module consists of is dropped there.
impl Drop for Module {
    fn drop(self) {
        let Module {
            types: _,
            imports: _,
            funcs: _,
            tables: _,
            memories: _,
            globals: _,
            exports: _,
            start: _,
            elems: _,
            segments: _,
            customs: _,
        } = self;
    }
}
