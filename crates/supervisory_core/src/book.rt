ghost use Rattle.std.specs.Prelude.{◌≡◌, ◌≤◌, ◌↔◌, ◌∷◌, ◌++◌, [], ℕ, List, IsTrue, IfOk, OnOk, OnErr, Ok, Err, Some, false, length};
ghost use Rattle.std.specs.Option.{option_copied};
ghost use Rattle.supervisory_core.specs.Orders.{Asks, answer_of, answer_to, answered, ask_of, is_full, most_open, open_order, order_numbered, unanswered};

use crate::error::{AnswerError, AskError};
use crate::order::Order;
use hermes_vertical::Question;
use line_base::Text;
use std::alloc::Global;
use std::marker::Model;

/// The most questions that wait for an answer.
const MOST_OPEN: usize = 256;

/// The work orders that a machine asked for.
///
/// It is seen as the list of the questions, each with its first answer; the first has the number
/// 1.
#[derive(Debug, Drop)]
pub struct OrderBook {
    orders: Vec<Order>,
    waiting: usize,
}

impl Model for OrderBook {
    ghost use Rattle.std.specs.Prelude.{List};
    ghost use Rattle.supervisory_core.specs.declared.order.Order.{Order as Asked};
    ghost use Rattle.supervisory_core.specs.Orders.{IsCounted};

    ghost Value = { List Asked };

    ghost view = { λ book. book.orders.items };

    ghost invariant = { λ book. IsCounted book.orders.items book.waiting };
}

impl OrderBook {
    /// No question yet.
    pub fn new(alloc: Global) -> OrderBook
        ensures { result ≡ [] }
    {
        OrderBook {
            orders: Vec::new(alloc),
            waiting: 0,
        }
    }

    /// Takes a question, and answers its number; the first has the number 1.
    ///
    /// `QueriesFull` exactly where 256 questions have no answer, or the last number is 2^64 - 1.
    /// Else `Memory`, where there is no room. After an error the book is as it was.
    pub fn ask(&mut self, question: Question) -> Result<u64, AskError>
        ensures answer { Asks result (ask_of self.old) }
        ensures asked { OnOk result (self.new ≡ self.old ++ open_order question ∷ []) }
        ensures number { IfOk result (λ number. number ≡ length self.new) }
        ensures full { (result ≡ Err AskError.QueriesFull) ↔ IsTrue (is_full self.old) }
        ensures unchanged { OnErr result (self.new ≡ self.old) }
        // on both outcomes
        ensures bounded { unanswered self.new ≤ most_open }

        // what was answered before stays answered so
        ensures kept { (query : ℕ) (text : List ℕ) → answer_to self.old query ≡ Some text
            → answer_to self.new query ≡ Some text }
    {
        if self.is_full() {
            let _open = self.unanswered();
            return Err(AskError::QueriesFull);
        }
        let answer = self.append(question);
        let _open = self.unanswered();
        answer
    }

    /// Takes an answer to the question of this number, and keeps it for good.
    ///
    /// `Unknown` exactly where no question of this number was asked, and `Answered` exactly where
    /// it was answered before; the book is then as it was. It takes no memory.
    pub fn answer(&mut self, query: u64, order: Text) -> Result<(), AnswerError>
        ensures answer { result ≡ answer_of self.old query }
        ensures answered { OnOk result (self.new ≡ answered self.old query order) }
        ensures now { OnOk result (answer_to self.new query ≡ Some order) }
        ensures unchanged { OnErr result (self.new ≡ self.old) }

        // what was answered before stays answered so
        ensures kept { (asked : ℕ) (text : List ℕ) → answer_to self.old asked ≡ Some text
            → answer_to self.new asked ≡ Some text }
    {
        if let Err(error) = self.may_answer(query) {
            return Err(error);
        }
        self.keep(query, order);
        Ok(())
    }

    /// The answer that is kept of the question of this number. `None` exactly where that question
    /// was not asked or not answered.
    pub fn kept_answer(&self, query: u64) -> Option<&Text>
        ensures { option_copied result ≡ answer_to self.now query }
    {
        match self.numbered(query) {
            Some(order) => order.answer.as_ref(),
            None => None,
        }
    }

    /// The number of the last question, 0 before the first.
    pub fn asked(&self) -> u64
        ensures { result ≡ length self.now }
    {
        self.orders.len() as u64
    }

    /// How many questions have no answer.
    pub fn unanswered(&self) -> usize
        ensures count { result ≡ unanswered self.now }
        ensures bounded { result ≤ most_open }
    {
        self.waiting
    }

    /// The questions with their answers, in the order of their numbers.
    pub fn list(&self) -> &[Order]
        ensures { result.now ≡ self.now }
    {
        self.orders.as_slice()
    }

    /// Whether no further question is taken: 256 questions have no answer, or the last number is
    /// 2^64 - 1.
    pub fn is_full(&self) -> bool
        ensures { result ≡ is_full self.now }
    {
        self.waiting == MOST_OPEN || self.asked() == u64::MAX
    }

    fn append(&mut self, question: Question) -> Result<u64, AskError>
        requires { is_full self.old ≡ false }
        ensures memory { OnErr result (result ≡ Err AskError.Memory) }
        ensures asked { OnOk result (self.new ≡ self.old ++ open_order question ∷ []) }
        ensures number { IfOk result (λ number. number ≡ length self.new) }
        ensures unchanged { OnErr result (self.new ≡ self.old) }
    {
        let order = Order {
            question,
            answer: None,
        };
        match self.orders.push(order) {
            Ok(()) => {
                self.waiting += 1;
                Ok(self.orders.len() as u64)
            }
            Err(_) => Err(AskError::Memory),
        }
    }

    /// Whether the question of this number waits for an answer; else what `answer` would answer.
    pub fn may_answer(&self, query: u64) -> Result<(), AnswerError>
        ensures { result ≡ answer_of self.now query }
    {
        match self.numbered(query) {
            Some(order) if order.answer.is_some() => Err(AnswerError::Answered(query)),
            Some(_) => Ok(()),
            None => Err(AnswerError::Unknown(query)),
        }
    }

    fn keep(&mut self, query: u64, text: Text)
        requires { answer_of self.old query ≡ Ok Prim.tt }
        ensures { self.new ≡ answered self.old query text }
    {
        let place = (query - 1) as usize;
        self.orders[place].answer = Some(text);
        self.waiting -= 1;
    }

    /// The question of this number, with its answer.
    fn numbered(&self, query: u64) -> Option<&Order>
        ensures { option_copied result ≡ order_numbered self.now query }
    {
        if query == 0 {
            return None;
        }
        self.orders.get((query - 1) as usize)
    }
}
