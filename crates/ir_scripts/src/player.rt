//! Scripts, line by line.
use crate::argument::Argument;
use crate::asking::{ask, ask_about, call};
use crate::edits::edit;
use crate::names::Names;
use crate::parts::entity_of;
use crate::picture::picture;
use crate::texts::plain;
use crate::tiny::{IntegerType, NamedType, Tiny, TinyOp, TinyType};
use ir_core::{Context, CoreError, Edit, Entity, RunEdits, TypeCalls};
use std::alloc::{AllocError, Global};
use std::mem;

/// A line that was answered otherwise than it says.
#[derive(Debug, PartialEq, Eq, Drop)]
pub struct Surprise {
    pub line: String,
    pub answer: String,
}

/// A script while it is played: its names, and the edits that are still to be made.
#[derive(Drop)]
pub struct Player<'a> {
    alloc: Global,
    names: Names<'a>,
    edits: Vec<Edit<TinyOp>>,
}

/// Plays a script in a new context. Answers the first line that was answered otherwise than it says.
///
/// # Errors
/// Without memory.
pub fn play<'a>(alloc: Global, script: &'a str) -> Result<Option<Surprise>, AllocError> {
    let mut ctx: Context<Tiny> = Context::new(alloc);
    let outcome = play_in(alloc, &mut ctx, script);
    finish(ctx);
    outcome
}

/// Lets a context go. It stands in a function of its own so that it is proved once.
pub fn finish(_ctx: Context<Tiny>) {}

/// Plays a script in a context.
fn play_in<'a>(
    alloc: Global,
    ctx: &mut Context<Tiny>,
    script: &'a str,
) -> Result<Option<Surprise>, AllocError> {
    let mut player = make_player(alloc, ctx)?;
    player.play(ctx, script)
}

/// The surprise that a line was answered so, where it says otherwise.
fn surprise_at(
    alloc: Global,
    line: &str,
    expected: &str,
    answer: String,
) -> Result<Option<Surprise>, AllocError> {
    if answer.trim() == expected.trim() {
        return Ok(None);
    }
    Ok(Some(Surprise {
        line: String::from_str(alloc, line.trim())?,
        answer,
    }))
}

/// A player without names, in a context that has the types.
fn make_player<'a>(alloc: Global, ctx: &mut Context<Tiny>) -> Result<Player<'a>, AllocError> {
    let integer = ctx.instantiate_key(alloc, TinyType::Integer(IntegerType { width: 32 }))?;
    let named = ctx.instantiate_key(alloc, TinyType::Named(NamedType { name: 1 }))?;
    Ok(Player {
        alloc,
        names: Names::new(alloc, [integer, named]),
        edits: Vec::new(alloc),
    })
}

/// The word for how an edit alone ended.
fn outcome_word(outcome: Result<Vec<Option<Entity>>, (usize, CoreError)>) -> &'static str {
    match outcome {
        Err((0, CoreError::EditNotAllowed)) => "",
        Err(_) => "another refusal",
        Ok(_) => "allowed",
    }
}

impl<'a> Player<'a> {
    /// Plays a script. Answers the first line that was answered otherwise than it says.
    fn play(
        &mut self,
        ctx: &mut Context<Tiny>,
        script: &'a str,
    ) -> Result<Option<Surprise>, AllocError> {
        for line in script.lines() {
            if let Some(surprise) = self.line(ctx, line)? {
                return Ok(Some(surprise));
            }
        }
        Ok(None)
    }

    /// Plays a line. Where it is answered otherwise than the line says, the line and that answer are what surprises.
    fn line(
        &mut self,
        ctx: &mut Context<Tiny>,
        line: &'a str,
    ) -> Result<Option<Surprise>, AllocError> {
        let (words, expected) = line.split_once("=>").unwrap_or((line, ""));
        let answer = self.answer(ctx, words)?;
        surprise_at(self.alloc, line, expected, answer)
    }

    /// What a line is answered.
    fn answer(&mut self, ctx: &mut Context<Tiny>, line: &'a str) -> Result<String, AllocError> {
        let words: Vec<&'a str> = line.split_whitespace().collect(self.alloc)?;
        self.answer_words(ctx, &words)
    }

    /// What a line of these words is answered.
    fn answer_words(
        &mut self,
        ctx: &mut Context<Tiny>,
        words: &[&'a str],
    ) -> Result<String, AllocError> {
        match words {
            [] => Ok(String::new(self.alloc)),
            [name, "=", command, arguments @ ..] => {
                self.names.promise(name, self.edits.len(), command)?;
                self.tell(ctx, command, arguments)
            }
            [name, "is", word] => self.name(ctx, name, word),
            ["run"] => self.run(ctx),
            ["refuse", command, arguments @ ..] => self.refuse(ctx, command, arguments),
            [command, arguments @ ..] => self.tell(ctx, command, arguments),
        }
    }

    /// Puts an edit behind the others of the list, or asks a question after they are made.
    fn tell(
        &mut self,
        ctx: &mut Context<Tiny>,
        command: &str,
        words: &[&str],
    ) -> Result<String, AllocError> {
        match self.edit(command, words)? {
            Some(edit) => self.put(edit),
            None => self.question(ctx, command, words),
        }
    }

    /// The edit that a command is with what words stand for, or none where it is none.
    fn edit(&self, command: &str, words: &[&str]) -> Result<Option<Edit<TinyOp>>, AllocError> {
        let arguments = self.arguments(words)?;
        edit(self.alloc, command, &arguments)
    }

    /// Puts an edit behind the others of the list.
    fn put(&mut self, edit: Edit<TinyOp>) -> Result<String, AllocError> {
        self.edits.push(edit)?;
        Ok(String::new(self.alloc))
    }

    /// What words stand for. A word that stands for nothing is left out.
    fn arguments(&self, words: &[&str]) -> Result<Vec<Argument>, AllocError> {
        let mut arguments = Vec::new(self.alloc);
        for word in words {
            if let Some(argument) = self.names.argument(word) {
                arguments.push(argument)?;
            }
        }
        Ok(arguments)
    }

    /// Makes the edits of the list. The answer is empty, or says which was refused and why.
    fn run(&mut self, ctx: &mut Context<Tiny>) -> Result<String, AllocError> {
        let edits = mem::replace(&mut self.edits, Vec::new(self.alloc));
        match ctx.run(edits) {
            Ok(made) => self.keep(&made),
            Err((number, refusal)) => self.give_up(number, refusal),
        }
    }

    /// Keeps what edits made.
    fn keep(&mut self, made: &[Option<Entity>]) -> Result<String, AllocError> {
        self.names.keep(made)?;
        Ok(String::new(self.alloc))
    }

    /// Forgets what refused edits were to make, and says which was refused and why.
    fn give_up(&mut self, number: usize, refusal: CoreError) -> Result<String, AllocError> {
        self.names.promised.clear();
        format!(in self.alloc; "{refusal:?} at {number}")
    }

    /// Names what a word stands for.
    fn name(
        &mut self,
        ctx: &mut Context<Tiny>,
        name: &'a str,
        word: &str,
    ) -> Result<String, AllocError> {
        let refusal = self.run(ctx)?;
        let Some(argument) = self.names.argument(word) else {
            return String::from_str(self.alloc, "it stands for nothing");
        };
        match entity_of(ctx, argument) {
            Some(entity) => {
                self.names.known.push((name, entity))?;
                Ok(refusal)
            }
            None => String::from_str(self.alloc, "it is not there"),
        }
    }

    /// Makes an edit alone, which is to be refused and to leave everything as it was.
    fn refuse(
        &mut self,
        ctx: &mut Context<Tiny>,
        command: &str,
        words: &[&str],
    ) -> Result<String, AllocError> {
        let before = self.run(ctx)?;
        if before.is_empty() {
            self.refused(ctx, command, words)
        } else {
            Ok(before)
        }
    }

    /// The same, once the edits of the list are made.
    fn refused(
        &mut self,
        ctx: &mut Context<Tiny>,
        command: &str,
        words: &[&str],
    ) -> Result<String, AllocError> {
        let before = picture(self.alloc, ctx, &self.names)?;
        let answer = self.make_alone(ctx, command, words)?;
        self.compared(ctx, &before, answer)
    }

    /// The answer, where what can be seen is as before.
    fn compared(
        &self,
        ctx: &Context<Tiny>,
        before: &str,
        answer: &str,
    ) -> Result<String, AllocError> {
        let after = picture(self.alloc, ctx, &self.names)?;
        let answer = if after.as_str() == before {
            answer
        } else {
            "something changed"
        };
        String::from_str(self.alloc, answer)
    }

    /// Makes an edit alone. The answer is empty where it is refused as not allowed.
    fn make_alone(
        &mut self,
        ctx: &mut Context<Tiny>,
        command: &str,
        words: &[&str],
    ) -> Result<&'static str, AllocError> {
        match self.edit(command, words)? {
            None => Ok("no edit"),
            Some(edit) => Ok(outcome_word(ctx.run(vec![in self.alloc; edit]?))),
        }
    }

    /// What a question is answered, after the edits of the list are made.
    fn question(
        &mut self,
        ctx: &mut Context<Tiny>,
        question: &str,
        words: &[&str],
    ) -> Result<String, AllocError> {
        let refusal = self.run(ctx)?;
        if refusal.is_empty() {
            self.told(ctx, question, words)
        } else {
            Ok(refusal)
        }
    }

    /// The same, once the edits of the list are made.
    fn told(
        &mut self,
        ctx: &mut Context<Tiny>,
        question: &str,
        words: &[&str],
    ) -> Result<String, AllocError> {
        match self.reply(ctx, question, words)? {
            Some(answer) => Ok(answer),
            None => String::from_str(self.alloc, "no edit and no question"),
        }
    }

    /// What a question about what is there is answered.
    fn reply(
        &mut self,
        ctx: &mut Context<Tiny>,
        question: &str,
        words: &[&str],
    ) -> Result<Option<String>, AllocError> {
        let entities = self.entities(words)?;
        match (question, entities.as_slice()) {
            ("is_ir_empty", _) => plain(
                self.alloc,
                if ctx.is_ir_empty() { "true" } else { "false" },
            ),
            (_, [entity]) if words.len() == 1 => {
                ask(self.alloc, ctx, &self.names, question, *entity)
            }
            (_, entities) => self.reply_about(ctx, question, entities, last_number(words)),
        }
    }

    /// What a question with further arguments is answered.
    fn reply_about(
        &mut self,
        ctx: &mut Context<Tiny>,
        question: &str,
        entities: &[Entity],
        index: usize,
    ) -> Result<Option<String>, AllocError> {
        match call(self.alloc, ctx, question, entities, index)? {
            Some(answer) => Ok(Some(answer)),
            None => ask_about(self.alloc, ctx, &self.names, question, entities, index),
        }
    }

    /// What is there under words.
    fn entities(&self, words: &[&str]) -> Result<Vec<Entity>, AllocError> {
        let mut entities = Vec::new(self.alloc);
        for word in words {
            if let Some(entity) = self.names.entity(word) {
                entities.push(entity)?;
            }
        }
        Ok(entities)
    }
}

/// The last number among words, 0 where there is none.
fn last_number(words: &[&str]) -> usize {
    let mut index = 0;
    for word in words {
        if let Ok(number) = word.parse() {
            index = number;
        }
    }
    index
}
