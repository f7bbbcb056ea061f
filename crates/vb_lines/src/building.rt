//! A module while its lines are read.
ghost use Rattle.std.specs.Prelude.{◌≡◌, ◌∷◌, ◌++◌, [], length, OnOk, IfOk, Option, Some, None};
ghost use Rattle.vb_tree.specs.declared.block.Role.TheVariants as role;
ghost use Rattle.vb_tree.specs.Blocks.{role_of, is_group};
ghost use Rattle.vb_tree.specs.View.{line_of, form_of};
ghost use Rattle.vb_lines.specs.Nesting.{innermost, fault_of, open_after};
ghost use Rattle.vb_lines.specs.Building.{opens_of, IsBuilt, AddsLine, OnFault};

use crate::frame::{Branch, Frame};
use crate::nesting::{fault_inside, is_group};
use std::alloc::Global;
use up_base::{Fault, Mem, ReadFail, Sequence};
use vb_tree::{BlockKind, CodeLine, Member6, Node6, Role};

/// A Type or Enum that is open.
#[derive(Drop)]
pub(crate) struct OpenGroup {
    pub(crate) kind: BlockKind,
    pub(crate) head: CodeLine,
    pub(crate) lines: Sequence<CodeLine>,
}

/// The members that are read, and what is open: a Type or Enum, or a procedure with the blocks in it, the innermost one last.
#[derive(Drop)]
pub(crate) struct ModuleBuild {
    pub(crate) members: Sequence<Member6>,
    pub(crate) group: Option<OpenGroup>,
    pub(crate) frames: Vec<Frame>,
}

impl ModuleBuild {
    /// Before the first line.
    pub(crate) fn new(alloc: Global) -> ModuleBuild
        ensures { IsBuilt [] result }
    {
        ModuleBuild {
            members: Sequence::new(alloc),
            group: None,
            frames: Vec::new(alloc),
        }
    }

    /// What the innermost open block is.
    pub(crate) fn innermost(&self) -> Option<BlockKind>
        ensures { result ≡ innermost (opens_of self.now) }
    {
        if let Some(group) = &self.group {
            return Some(group.kind);
        }
        match self.frames.last() {
            None => None,
            Some(frame) => Some(frame.kind),
        }
    }

    // How many blocks are open.
    fn depth(&self) -> usize
        ensures { result ≡ length (opens_of self.now) }
    {
        if self.group.is_some() {
            return 1;
        }
        self.frames.len()
    }

    /// The fault of nesting that a line of this role has behind the lines that are there.
    pub(crate) fn fault(&self, role: Role) -> Option<u8>
        ensures { result ≡ fault_of (opens_of self.now) role }
    {
        fault_inside(self.innermost(), self.depth(), role)
    }

    // Adds a line that neither opens nor parts nor closes a block.
    fn add_plain(&mut self, line: CodeLine) -> Result<(), Mem>
        requires { role_of (line_of line).form ≡ role.Plain }
        ensures { OnOk result (AddsLine (line_of line) self.old self.new) }
    {
        if let Some(mut group) = self.group.take() {
            group.lines.push(line)?;
            self.group = Some(group);
            return Ok(());
        }
        match self.frames.pop() {
            None => self.members.push(Member6::Line(line))?,
            Some(mut frame) => {
                frame.push(Node6::Line(line))?;
                self.frames.push(frame)?;
            }
        }
        Ok(())
    }

    // Adds a line that opens a block.
    fn add_head(&mut self, alloc: Global, kind: BlockKind, line: CodeLine) -> Result<(), Mem>
        requires opens { role_of (line_of line).form ≡ role.Opens kind }
        requires right { fault_of (opens_of self.old) (role.Opens kind) ≡ None }
        ensures { OnOk result (AddsLine (line_of line) self.old self.new) }
    {
        if is_group(kind) {
            self.group = Some(OpenGroup {
                kind,
                head: line,
                lines: Sequence::new(alloc),
            });
            return Ok(());
        }
        self.frames.push(Frame {
            kind,
            head: line,
            body: Vec::new(alloc),
            branches: Vec::new(alloc),
        })?;
        Ok(())
    }

    // Adds a line that parts the innermost block.
    fn add_middle(&mut self, alloc: Global, kind: BlockKind, line: CodeLine) -> Result<(), Mem>
        requires parts { role_of (line_of line).form ≡ role.Parts kind }
        requires right { fault_of (opens_of self.old) (role.Parts kind) ≡ None }
        ensures { OnOk result (AddsLine (line_of line) self.old self.new) }
    {
        let Some(mut frame) = self.frames.pop() else {
            return Ok(());
        };
        frame.branches.push(Branch {
            line,
            body: Vec::new(alloc),
        })?;
        self.frames.push(frame)?;
        Ok(())
    }

    // Adds a line that closes the innermost block.
    fn add_close(&mut self, alloc: Global, kind: BlockKind, line: CodeLine) -> Result<(), Mem>
        requires closes { role_of (line_of line).form ≡ role.Closes kind }
        requires right { fault_of (opens_of self.old) (role.Closes kind) ≡ None }
        ensures { OnOk result (AddsLine (line_of line) self.old self.new) }
    {
        if let Some(group) = self.group.take() {
            let OpenGroup { head, lines, .. } = group;
            self.members.push(Member6::Group(head, lines, line))?;
            return Ok(());
        }
        let Some(frame) = self.frames.pop() else {
            return Ok(());
        };
        let Some(mut outer) = self.frames.pop() else {
            let Frame { head, mut body, .. } = frame;
            body.shrink_to_fit();
            self.members
                .push(Member6::Proc(head, Sequence::from_vec(body), line))?;
            return Ok(());
        };
        outer.push(frame.close(alloc, line)?)?;
        self.frames.push(outer)?;
        Ok(())
    }

    // Adds a line that has no fault of nesting.
    fn add(&mut self, alloc: Global, role: Role, line: CodeLine) -> Result<(), Mem>
        requires role { role ≡ role_of (line_of line).form }
        requires right { fault_of (opens_of self.old) role ≡ None }
        ensures { OnOk result (AddsLine (line_of line) self.old self.new) }
    {
        match role {
            Role::Plain => self.add_plain(line)?,
            Role::Opens(kind) => self.add_head(alloc, kind, line)?,
            Role::Parts(kind) => self.add_middle(alloc, kind, line)?,
            Role::Closes(kind) => self.add_close(alloc, kind, line)?,
        }
        Ok(())
    }

    /// Adds a line, or tells its fault of nesting.
    pub(crate) fn take(&mut self, alloc: Global, line: CodeLine) -> Result<(), ReadFail>
        ensures right { OnOk result (fault_of (opens_of self.old) (role_of (line_of line).form) ≡ None) }
        ensures ok { OnOk result (AddsLine (line_of line) self.old self.new) }
        ensures fault { OnFault result (λ f. (f.place ≡ line.place) × (fault_of (opens_of self.old) (role_of (line_of line).form) ≡ Some f.kind)) }
    {
        let role = line.form.role();
        if let Some(kind) = self.fault(role) {
            return Err(ReadFail::Fault(Fault {
                place: line.place,
                kind,
            }));
        }
        self.add(alloc, role, line)?;
        Ok(())
    }
}
