//! What begins in a text, and what stands alone in it.
ghost use Rattle.std.specs.Prelude.{◌≡◌, ◌-◌, ◌∷◌, ◌++◌, [], ℕ, List, None, OnOk, IfErr};
ghost use Rattle.ir_characters.specs.Texts.{codes_of};
ghost use Rattle.ir_print.specs.Shown.{IsLeaf};
ghost use Rattle.ir_print.specs.declared.format.LeafValue.{LeafValue};
ghost use Rattle.ir_program.specs.declared.handles.BasicBlock.{BasicBlock};
ghost use Rattle.ir_program.specs.declared.handles.Ptr.{Ptr};
ghost use Rattle.text_frames.specs.declared.opened.AssemblyFault.TheVariants.{Memory};
ghost use Rattle.text_frames.specs.declared.opened.OpenOperation.{OpenOperation};
ghost use Rattle.text_assembling.specs.Assembling.{Begun, KeepsAround, NamesOne, value_body};
ghost use Rattle.text_frames.specs.Makes.{IsSpelled};
ghost use Rattle.text_frames.specs.Opened.{HasOneMoreName, HasBody, HasPut};
ghost use Rattle.ir_forest.specs.Meaning.{leaf_in};

use crate::assembling::Assembler;
use ir_characters::Text;
use ir_print::{LeafSort, Part, ValueSort};
use text_dialect::TextDialect;
use text_frames::making::leaf_of;
use text_frames::opened::{AssemblyFault, Body, Content, Open, OpenBlock, OpenOperation};

impl<D: TextDialect> Assembler<D> {
    ghost use Rattle.ir_print.specs.declared.format.Part.{Part};
    ghost use Rattle.ir_print.specs.declared.format.Part.TheVariants as part;
    ghost use Rattle.text_frames.specs.declared.opened.Body.TheVariants as body;
    ghost use Rattle.std.specs.Prelude.{Vec};
    ghost use Rattle.std.specs.Global.{Global};

    /// Something begins at the last token, in spare memory if there is some.
    #[inline(always)]
    pub fn begin(
        &mut self,
        spares: &mut Vec<Box<Content<D>>>,
        body: Body<D>,
    ) -> Result<(), AssemblyFault>
        ensures begun { OnOk result (Begun self.old self.new body) }
        ensures taken { self.new.taken ≡ self.old.taken }
        ensures made { self.new.made ≡ self.old.made }
        ensures memory { IfErr result (λ e. e ≡ Memory) }
    {
        self.around.reserve(1)?;
        let content = match spares.pop() {
            Some(content) => content,
            None => Box::new(self.alloc, Content::new(self.alloc))?,
        };
        let inner = Open::reusing(self.alloc, content, body, self.last());
        let outer = std::mem::replace(&mut self.here, inner);
        self.around.push_reserved(outer);
        Ok(())
    }

    /// An operation of the kind with this number begins, with no operand, no edge and no region yet.
    pub fn begin_operation(
        &mut self,
        spares: &mut Vec<Box<Content<D>>>,
        kind: u8,
    ) -> Result<(), AssemblyFault>
        ensures begun { OnOk result ((o : OpenOperation) × Begun self.old self.new (body.Operation o)
            × (o.kind ≡ kind) × (o.operands.items ≡ []) × (o.labels.items ≡ []) × (o.regions.items ≡ [])) }
        ensures made { self.new.made ≡ self.old.made }
        ensures taken { self.new.taken ≡ self.old.taken }
        ensures memory { IfErr result (λ e. e ≡ Memory) }
    {
        let mut operands = std::mem::replace(&mut self.spare_operands, Vec::new(self.alloc));
        operands.clear();
        let mut labels = std::mem::replace(&mut self.spare_labels, Vec::new(self.alloc));
        labels.clear();
        let body = Body::Operation(OpenOperation {
            kind,
            operands,
            labels,
            regions: Vec::new(self.alloc),
        });
        self.begin(spares, body)
    }

    /// A block begins, which is made once its header is read.
    pub fn begin_block(&mut self, spares: &mut Vec<Box<Content<D>>>) -> Result<(), AssemblyFault>
        ensures begun { OnOk result (Begun self.old self.new (body.Block (record { block = None }))) }
        ensures made { self.new.made ≡ self.old.made }
        ensures taken { self.new.taken ≡ self.old.taken }
        ensures memory { IfErr result (λ e. e ≡ Memory) }
    {
        self.begin(spares, Body::Block(OpenBlock { block: None }))
    }

    /// A value of this sort begins, of the kind with this number.
    pub fn begin_value(
        &mut self,
        spares: &mut Vec<Box<Content<D>>>,
        sort: ValueSort,
        kind: u8,
    ) -> Result<(), AssemblyFault>
        ensures begun { OnOk result (Begun self.old self.new (value_body sort kind)) }
        ensures made { self.new.made ≡ self.old.made }
        ensures taken { self.new.taken ≡ self.old.taken }
        ensures memory { IfErr result (λ e. e ≡ Memory) }
    {
        let body = match sort {
            ValueSort::Type => Body::Type(kind),
            ValueSort::Attribute => Body::Attribute(kind),
        };
        self.begin(spares, body)
    }

    /// A member of a list begins.
    pub fn begin_item(&mut self, spares: &mut Vec<Box<Content<D>>>) -> Result<(), AssemblyFault>
        ensures begun { OnOk result (Begun self.old self.new body.Item) }
        ensures made { self.new.made ≡ self.old.made }
        ensures taken { self.new.taken ≡ self.old.taken }
        ensures memory { IfErr result (λ e. e ≡ Memory) }
    {
        self.begin(spares, Body::Item)
    }

    /// What the format with this number says, of several, begins.
    pub fn begin_choice(
        &mut self,
        spares: &mut Vec<Box<Content<D>>>,
        number: usize,
    ) -> Result<(), AssemblyFault>
        ensures begun { OnOk result (Begun self.old self.new (body.Choice number)) }
        ensures made { self.new.made ≡ self.old.made }
        ensures taken { self.new.taken ≡ self.old.taken }
        ensures memory { IfErr result (λ e. e ≡ Memory) }
    {
        self.begin(spares, Body::Choice(number))
    }

    /// A list begins, with no member yet.
    pub fn begin_list(&mut self, spares: &mut Vec<Box<Content<D>>>) -> Result<(), AssemblyFault>
        ensures begun { OnOk result ((ms : Vec (Vec (Part D D.OpKind D.Attr D.TypeKey) Global) Global)
            × Begun self.old self.new (body.List ms) × (ms.items ≡ [])) }
        ensures made { self.new.made ≡ self.old.made }
        ensures taken { self.new.taken ≡ self.old.taken }
        ensures memory { IfErr result (λ e. e ≡ Memory) }
    {
        self.begin(spares, Body::List(Vec::new(self.alloc)))
    }

    /// Operands begin, with none yet.
    pub fn begin_operands(&mut self, spares: &mut Vec<Box<Content<D>>>) -> Result<(), AssemblyFault>
        ensures begun { OnOk result ((ks : Vec ℕ Global)
            × Begun self.old self.new (body.Operands ks) × (ks.items ≡ [])) }
        ensures made { self.new.made ≡ self.old.made }
        ensures taken { self.new.taken ≡ self.old.taken }
        ensures memory { IfErr result (λ e. e ≡ Memory) }
    {
        self.begin(spares, Body::Operands(Vec::new(self.alloc)))?;
        // Operands have no parts, so the memory for the tokens of parts serves for theirs.
        if let Body::Operands(tokens) = &mut self.here.body {
            std::mem::swap(tokens, &mut self.here.content.tokens);
        }
        Ok(())
    }

    /// An edge begins at the token of its label, with no operand yet.
    pub fn begin_successor(
        &mut self,
        spares: &mut Vec<Box<Content<D>>>,
    ) -> Result<(), AssemblyFault>
        ensures begun { OnOk result ((ks : Vec ℕ Global)
            × Begun self.old self.new (body.Successor ks) × (ks.items ≡ [])) }
        ensures taken { self.new.taken ≡ self.old.taken }
        ensures made { self.new.made ≡ self.old.made }
        ensures memory { IfErr result (λ e. e ≡ Memory) }
    {
        self.begin(spares, Body::Successor(Vec::new(self.alloc)))?;
        // An edge has no parts, so the memory for the tokens of parts serves for those of its operands.
        if let Body::Successor(tokens) = &mut self.here.body {
            std::mem::swap(tokens, &mut self.here.content.tokens);
        }
        Ok(())
    }

    /// A region begins, with no block yet.
    pub fn begin_region(&mut self, spares: &mut Vec<Box<Content<D>>>) -> Result<(), AssemblyFault>
        ensures begun { OnOk result ((bs : Vec (Ptr BasicBlock) Global)
            × Begun self.old self.new (body.Region bs) × (bs.items ≡ [])) }
        ensures made { self.new.made ≡ self.old.made }
        ensures taken { self.new.taken ≡ self.old.taken }
        ensures memory { IfErr result (λ e. e ≡ Memory) }
    {
        self.begin(spares, Body::Region(Vec::new(self.alloc)))
    }

    /// One more definition is named, which isn't made yet.
    #[inline]
    fn name_definition(&mut self) -> Result<(), AssemblyFault>
        ensures named { OnOk result (NamesOne self.old self.new) }
        ensures loose { self.new.made.loose ≡ self.old.made.loose }
        ensures here { (self.new.here ≡ record self.old.here { numbers = self.new.here.numbers }) }
        ensures around { KeepsAround self.old self.new }
        ensures memory { IfErr result (λ e. e ≡ Memory) }
    {
        let number = self.made.values.len();
        self.here.numbers.push(number)?;
        self.made.values.push(None)?;
        Ok(())
    }

    /// The last token names a result of the operation that comes.
    pub fn result(&mut self) -> Result<(), AssemblyFault>
        ensures name { OnOk result (HasOneMoreName self.old.here self.new.here (self.old.taken - 1)) }
        ensures named { OnOk result (NamesOne self.old self.new) }
        ensures loose { self.new.made.loose ≡ self.old.made.loose }
        ensures around { KeepsAround self.old self.new }
        ensures memory { IfErr result (λ e. e ≡ Memory) }
    {
        let token = self.last();
        self.here.names.push(token)?;
        self.name_definition()
    }

    /// The last token names an argument of the block that is being read.
    pub fn argument(&mut self) -> Result<(), AssemblyFault>
        ensures here { HasBody self.old.here self.new.here self.old.here.body }
        ensures content { self.new.here.content ≡ self.old.here.content }
        ensures named { OnOk result (NamesOne self.old self.new) }
        ensures loose { self.new.made.loose ≡ self.old.made.loose }
        ensures around { KeepsAround self.old self.new }
        ensures memory { IfErr result (λ e. e ≡ Memory) }
    {
        self.here.names.clear();
        self.name_definition()
    }

    /// The last token names an operand, that of an operation or one that an edge hands on.
    pub fn operand(&mut self) -> Result<(), AssemblyFault>
        ensures here { (ks : Vec ℕ Global) → self.old.here.body ≡ body.Operands ks → OnOk result ((ls : Vec ℕ Global)
            × (self.new.here ≡ record self.old.here { body = body.Operands ls })
            × (ls.items ≡ ks.items ++ (self.old.taken - 1) ∷ [])) }
        ensures handed_on { (ks : Vec ℕ Global) → self.old.here.body ≡ body.Successor ks
            → OnOk result ((ls : Vec ℕ Global) × (self.new.here ≡ record self.old.here { body = body.Successor ls })
            × (ls.items ≡ ks.items ++ (self.old.taken - 1) ∷ [])) }
        ensures made { self.new.made ≡ self.old.made }
        ensures around { KeepsAround self.old self.new }
        ensures memory { IfErr result (λ e. e ≡ Memory) }
    {
        let token = self.last();
        match &mut self.here.body {
            Body::Operands(tokens) => tokens.push(token)?,
            Body::Successor(tokens) => tokens.push(token)?,
            _ => {}
        }
        Ok(())
    }

    /// The last token is a leaf of this sort.
    pub fn leaf(&mut self, sort: LeafSort, text: Text) -> Result<(), AssemblyFault>
        ensures here { IsSpelled (leaf_in sort (codes_of text.entry)) → OnOk result ((l : LeafValue)
            × IsLeaf l (leaf_in sort (codes_of text.entry))
            × HasPut self.old.here self.new.here self.old.here.body (part.Leaf l) ((self.old.taken - 1) ∷ [])) }
        ensures made { self.new.made ≡ self.old.made }
        ensures around { KeepsAround self.old self.new }
        ensures memory { IfErr result (λ e. e ≡ Memory) }
    {
        let token = self.last();
        match leaf_of(self.alloc, sort, text)? {
            Some(leaf) => self.here.put(Part::Leaf(leaf), token),
            None => Ok(()),
        }
    }
}
